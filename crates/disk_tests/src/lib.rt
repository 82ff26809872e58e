//! Tests of sources and sinks and of disks. They stand apart from the crates that they test, which
//! would each be proved a second time for tests of their own.
#![tactic(auto)]

#[cfg(test)]
mod disks;
#[cfg(test)]
mod streams;
