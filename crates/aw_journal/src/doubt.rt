/// Whether an append failed since the last repair, and how far it had come.
#[derive(Clone, Copy, Debug, PartialEq, Eq)]
pub enum Doubt {
    /// None failed.
    Settled,
    /// Its gate is closed on the disk, whatever stands behind it.
    Closed,
    /// Its frame is on the disk, and its gate may be open or closed.
    Opening,
}
