//! Whether statements and expressions are accepted: their names, types, dimensions and weight.
#![tactic(auto)]

mod checking;
mod expressions;
mod fitting;
mod measuring;
mod naming;
mod own_names;

pub use checking::{Typed, check};
pub use dml_kinds::{
    Known, Locals, Meaning, Measure, Signature, Signatures, TypeFault, ValueType, check_expr,
};
