//! The bytes that are always the same (docs/FORMATS.md, "Records").

/// Begins a record of definitions.
pub const DEFINITIONS: u8 = b'D';

/// Begins a commit.
pub const COMMIT: u8 = b'C';

/// The version of a record, behind its letter.
pub const VERSION: u8 = 1;

/// The kinds of definitions.
pub const DIMENSION: u8 = 0;

pub const RELATION: u8 = 1;

pub const VALUESET: u8 = 2;

pub const VARIABLE: u8 = 3;

pub const FORMULA: u8 = 4;

pub const PROGRAM: u8 = 5;

pub const AGGMAP: u8 = 6;

/// The types of a variable.
pub const NUMBER_TYPE: u8 = 1;

pub const INTEGER_TYPE: u8 = 2;

pub const TEXT_TYPE: u8 = 3;

pub const BOOLEAN_TYPE: u8 = 4;

/// The letters of patches: of values, of cells and of slots.
pub const VALUES_PATCH: u8 = b'L';

pub const CELLS_PATCH: u8 = b'M';

pub const SLOTS_PATCH: u8 = b'S';

/// The kinds of cells.
pub const NA_CELL: u8 = 0;

pub const NUMBER_CELL: u8 = 1;

pub const INTEGER_CELL: u8 = 2;

pub const TEXT_CELL: u8 = 3;

pub const BOOLEAN_CELL: u8 = 4;

pub const SLOT_CELL: u8 = 5;

/// The bits of the least number of 32 bits, which is no INTEGER.
pub const NO_INTEGER: u32 = 0x8000_0000;
