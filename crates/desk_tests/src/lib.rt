//! Tests of desks with one caller, with two and with 64. They stand apart from the crate that they test,
//! which would be proved a second time for tests of its own.
#![tactic(auto)]

#[cfg(test)]
mod desks;
