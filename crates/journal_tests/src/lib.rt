//! Tests of a journal over devices that fail, and of each moment of an append. They stand apart from
//! the crate that they test, which would be proved a second time for tests of its own.
#![tactic(auto)]

#[cfg(test)]
mod journals;
