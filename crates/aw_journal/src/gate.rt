ghost use Rattle.std.specs.Prelude.{◌<◌, length};
ghost use Rattle.aw_journal.specs.inside.FramesRead.{Begins};

/// A gate, and what of its frame's length stands behind it.
#[derive(Clone, Copy, Debug, PartialEq, Eq)]
pub enum Gate {
    /// It ends the payloads.
    Closed,
    /// A payload of this length follows.
    Open(u32),
    /// It is open, and the disk ends inside the length.
    CutShort,
}

/// The gate that these bytes begin with.
pub fn gate_of(bytes: &[u8]) -> Gate
    requires { 0 < length bytes.now }
    ensures { Begins result bytes.now }
{
    match bytes {
        [1, a, b, c, d, ..] => Gate::Open(u32::from_be_bytes([*a, *b, *c, *d])),
        [1, ..] => Gate::CutShort,
        _ => Gate::Closed,
    }
}
