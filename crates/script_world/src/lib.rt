//! What a script means, over any meaning of a line and any shared state: the world of a run, its
//! transcript, the records that it was to write, and what a crash may leave of them. All of it is
//! definitions and laws on them; what a line means stands in the crates above.
#![tactic(auto)]
