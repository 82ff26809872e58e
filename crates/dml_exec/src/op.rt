use aw_cell::{Cell, Kind, Order};
use aw_lists::List;

/// The slot of one dimension at which an object is read.
#[derive(Clone, Copy, Debug, PartialEq, Eq)]
pub enum Axis {
    /// That of the place, for the dimension with this number.
    Free(u16),
    /// That of the fix with this number, from 0.
    Fixed(u16),
}

/// One step of the machine. An operator takes its operands from the stack, the right one first, and
/// puts its result there (docs/ARCHITECTURE.md, "Code of expressions").
#[derive(Drop)]
pub enum Op {
    /// Puts a cell of a kind, or NA, on the stack.
    Push { cell: Cell, kind: Kind },
    /// Puts the local with this number there.
    Local(u16),
    /// Reads an object at a slot for each of its dimensions.
    Load { object: u16, axes: List<Axis> },
    /// The name of the place's value in a dimension.
    Name { dimension: u16 },
    /// The name of the value whose slot it takes from the stack.
    NameOf { dimension: u16 },
    Add,
    Sub,
    Mul,
    Div,
    Neg,
    Abs,
    Min,
    Max,
    NaFill,
    /// An INTEGER as a NUMBER, or a NUMBER as an INTEGER.
    Convert(Kind),
    Compare(Order),
    And,
    Or,
    Not,
    /// Takes a BOOLEAN, goes on at YES, and jumps to a place each at NO and at NA.
    Branch { no: u32, na: u32 },
    /// Goes on at a place.
    Jump(u32),
}
