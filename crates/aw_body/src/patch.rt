use aw_dim::Dimension;
use aw_lists::List;
use aw_var::Patch;

/// What makes one body of another (docs/SHARING.md, "Bodies and patches").
#[derive(Drop)]
pub enum BodyPatch {
    /// The new values of a dimension, in place of those before.
    Values(Dimension),
    /// The new slots of a valueset, in place of those before.
    Slots(List<u16>),
    /// The cells of a relation or a variable that change, by rising keys; NA takes a cell away.
    Cells(Patch),
}
