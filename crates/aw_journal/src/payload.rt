use aw_lists::List;

/// A payload as it stands on the disk: the offset of its frame's gate, in bytes from the disk's start,
/// and its own bytes.
#[derive(Debug, Drop)]
pub struct Payload {
    pub offset: u64,
    pub bytes: List<u8>,
}
