//! Code of expressions: ops for one stack machine, the test by which code is accepted, and the machine.
#![tactic(auto)]

mod arrivals;
mod code;
mod fault;
mod flow;
mod free;
mod kinds;
mod laws;
mod machine;
mod op;
mod operator;
mod pile;
mod place;
mod stack;
mod survey;

pub use code::Code;
pub use fault::CodeFault;
pub use kinds::{Fix, Kinds, ObjectKind};
pub use laws::accepted_code_is_never_stuck;
pub use machine::{Cells, run};
pub use op::{Axis, Op};
pub use place::Place;
pub use stack::Stack;
