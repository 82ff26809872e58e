/// Why an amount isn't shared out (docs/LANGUAGE.md, "Allocation").
#[derive(Clone, Copy, Debug, PartialEq, Eq)]
pub enum ShareFault {
    /// The weights by which it is shared out add up to zero.
    ZeroBasis,
    /// A weight or a share is out of range.
    Overflow,
}
