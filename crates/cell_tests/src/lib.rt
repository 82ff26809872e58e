//! Tests of lists, coordinates and cells. They stand apart from the crates that they test, which
//! would each be proved a second time for tests of their own.
#![tactic(auto)]

#[cfg(test)]
mod cells;
#[cfg(test)]
mod lists;
#[cfg(test)]
mod numerals;
