/// Why a disk can't be loaded.
#[derive(Clone, Copy, Debug, PartialEq, Eq)]
pub enum LoadFault {
    /// It has fewer than 9 bytes or another head.
    Unformatted,
    /// The frame whose open gate is at this offset is cut short.
    Damaged(u64),
    /// The disk failed.
    DiskFault,
    /// There is no memory for a payload.
    NoMemory,
}

/// Why a disk can't be formatted.
#[derive(Clone, Copy, Debug, PartialEq, Eq)]
pub enum FormatFault {
    /// It has at least 9 bytes and the head.
    AlreadyFormatted,
    /// The disk failed.
    DiskFault,
}
