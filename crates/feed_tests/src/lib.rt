//! Tests of listeners and of the feed that tells them. They stand apart from `aw_feed`, which would
//! be proved a second time for tests of its own.
#![tactic(auto)]

#[cfg(test)]
mod listeners;
