//! The definitions of the objects of a workspace, and the catalogue that accepts them one by one
//! (docs/LANGUAGE.md, "Definitions").
#![tactic(auto)]

mod catalogue;
mod definition;
mod fault;

pub use catalogue::Catalogue;
pub use definition::{Def, DefKind};
pub use fault::SchemaFault;
