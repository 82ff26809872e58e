//! Tests of pages, dimensions, variables, definitions and bodies. They stand apart from the crates
//! that they test, which would each be proved a second time for tests of their own.
#![tactic(auto)]

#[cfg(test)]
mod bodies;
#[cfg(test)]
mod catalogues;
#[cfg(test)]
mod dimensions;
#[cfg(test)]
mod pages;
#[cfg(test)]
mod threads;
#[cfg(test)]
mod variables;
