//! The bytes of records: the definitions and the commits that a journal keeps (docs/FORMATS.md,
//! "Records").
#![tactic(auto)]

mod cells;
mod changes;
mod decoding;
mod definitions;
mod encoding;
mod fields;
mod keys;
mod laws;
mod marks;
mod patches;
mod record;
mod sizes;
mod slots;
mod threads;
mod values;
mod writing;

pub use decoding::decode;
pub use encoding::{encode_catalogue, encode_commit};
pub use laws::{spelling_or_fault, spellings_differ, wholes_are_records};
pub use record::{BadRecord, CodeLong, Decoded};
