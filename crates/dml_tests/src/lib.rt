//! Tests of the tokens of a line. They stand apart from the crate that they test, which would be proved
//! a second time for tests of its own.
#![tactic(auto)]

#[cfg(test)]
mod lines;
#[cfg(test)]
mod threads;
