//! Tests of records: worked ones of every kind, spelled and read back, and faults with their
//! offsets. They stand apart from the crate that they test, which would be proved a second time for
//! tests of its own.
#![tactic(auto)]

#[cfg(test)]
mod faults;
#[cfg(test)]
mod records;
