//! Tests of `dml_parse`, and lines worked out by hand as theorems (`proofs/Worked.antt`). They stand
//! apart from this crate, which would be proved a second time for tests of its own.
#![tactic(auto)]

#[cfg(test)]
mod definitions;
#[cfg(test)]
mod fronts;
#[cfg(test)]
mod statements;
