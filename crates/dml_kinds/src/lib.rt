//! What names mean, and the types, dimensions and weight of expressions.
#![tactic(auto)]

mod checking;
mod dimensions;
mod fault;
mod gathering;
mod held;
mod meaning;
mod parts;
mod refusing;
mod resolving;
mod scope;
mod signature;
mod tree;
mod types;
mod typing;
mod weighing;

pub use checking::{Measure, TypedExpr, check_expr, check_formula, with_tree};
pub use dimensions::is_among;
pub use fault::TypeFault;
pub use gathering::{fixed_names, push_targets, push_uses, push_value_uses};
pub use meaning::{Known, Meaning, Role, Use};
pub use parts::{Part, part_of};
pub use scope::{Locals, Scope};
pub use signature::{Signature, Signatures};
pub use tree::{FixedValue, Taken, Tree};
pub use types::ValueType;
