//! Tests of what a line is, of what it is answered, and of the names of sessions. They stand apart
//! from the crates that they test, which would each be proved a second time for tests of their own.
#![tactic(auto)]

#[cfg(test)]
mod answers;
#[cfg(test)]
mod lines;
#[cfg(test)]
mod names;
#[cfg(test)]
mod replies;
#[cfg(test)]
mod threads;
