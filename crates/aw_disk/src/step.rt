use aw_lists::List;

/// What changed a disk in memory, or put its content on the disk (docs/FORMATS.md, "The disk model").
#[derive(Debug, Drop)]
pub enum Step {
    /// These bytes were written at this offset, in bytes from 0.
    Write(u64, List<u8>),
    /// A sync succeeded.
    Sync,
}

/// What an image has in place of each byte that no successful sync covers (docs/FORMATS.md, "The disk
/// model").
#[derive(Clone, Copy, Debug, PartialEq, Eq)]
pub enum Pick {
    /// The byte that the content has there.
    Kept,
    /// The byte that the last sync left there, or 0 behind its end.
    Old,
    /// This byte.
    Fill(u8),
}
