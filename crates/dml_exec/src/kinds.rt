use aw_cell::{Kind, Text};
use aw_lists::{Coord, List};

/// A value that an expression names in place of a free dimension.
#[derive(Clone, Copy)]
pub struct Fix {
    /// The number of the dimension.
    pub dimension: u16,
    /// The name of the value.
    pub value: Text,
}

/// What code can do with an object.
#[derive(Clone, Copy)]
pub enum ObjectKind {
    /// It names the values of this dimension.
    Dimension,
    /// It reads cells of one kind, each at a slot for each of these dimensions.
    Cells { kind: Kind, dimensions: Coord },
    /// Nothing.
    Other,
}

/// What code may name: the objects by their numbers, and the locals.
#[derive(Drop)]
pub struct Kinds {
    /// The objects, each under its number.
    pub objects: List<ObjectKind>,
    /// The kinds of the locals.
    pub locals: List<Kind>,
}
