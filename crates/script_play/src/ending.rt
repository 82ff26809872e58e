ghost use Rattle.std.specs.Prelude.{◌≡◌};
ghost use Rattle.script_play.specs.Runs.{status_of};

/// How a run of `play` ends whose disk was opened.
#[derive(Clone, Copy)]
pub enum Ending {
    /// The whole script was answered, and no line was refused.
    Accepted,
    /// The whole script was answered, and some line was refused.
    Refusing,
    /// The source failed.
    SourceFault,
    /// The sink failed.
    SinkFault,
    /// The disk failed while the definitions were written.
    DiskFault,
    NoMemory,
    /// The script has more bytes than a script may have.
    TooLong,
}

impl Ending {
    /// The status of a run that ends so.
    pub fn status(self) -> u8
        ensures { result ≡ status_of self }
    {
        match self {
            Ending::Accepted => 0,
            Ending::Refusing => 1,
            Ending::SourceFault => 3,
            Ending::SinkFault => 4,
            Ending::DiskFault => 5,
            Ending::NoMemory => 6,
            Ending::TooLong => 10,
        }
    }
}
