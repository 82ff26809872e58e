//! Tests of a run and of opening a workspace, over devices that fail. They stand apart from the crates
//! that they test, which would each be proved a second time for tests of their own.
#![tactic(auto)]

#[cfg(test)]
mod limit;
#[cfg(test)]
mod listening;
#[cfg(test)]
mod opening;
#[cfg(test)]
mod playing;
