/// Why a player stops before the end of the script.
#[derive(Clone, Copy)]
pub enum Stop {
    SinkFault,
    /// The disk failed while the definitions were written.
    DiskFault,
    NoMemory,
}
