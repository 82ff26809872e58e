//! Tests of a store. They stand apart from the crate that they test, which would be proved a second
//! time for tests of its own. What scripts show of a store over disks that fail stands in `script_tests`.
#![tactic(auto)]

#[cfg(test)]
mod stores;
