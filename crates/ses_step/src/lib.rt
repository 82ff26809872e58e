//! One line of a script, and what it does to one session. It works on the session's own values and
//! knows neither the other sessions nor the shared state but by its entries and replies.
#![tactic(auto)]

mod answer;
mod command;
mod definition;
mod effects;
mod line;
mod names;
mod objects;
mod refusing;
mod session;
mod sharing;
mod word;

pub use answer::{Answer, append_line};
pub use command::{Asked, Command};
pub use definition::{Definition, NamedKind, kept_kind};
pub use line::{LineForm, is_end, keeps_form, opens_block, sort_line};
pub use names::Names;
pub use objects::name_at;
pub use refusing::types_refusal;
pub use session::{Begun, Known, Session, parse_refusal};
pub use std::alloc::AllocError as NoMemory;
