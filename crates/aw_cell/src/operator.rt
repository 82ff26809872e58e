/// How an amount goes down from a value to its children (docs/LANGUAGE.md, "Operators").
#[derive(Clone, Copy, Debug, PartialEq, Eq)]
pub enum Spread {
    /// In equal shares, to the children that have a basis.
    Even,
    /// In equal shares, to all children.
    HEven,
    /// In shares as the basis has them, to the children that have one.
    Proportional,
    /// The whole amount to each child that has a basis.
    Copy,
    /// The whole amount to each child.
    HCopy,
}

/// Which child gets what the shares, cut off toward zero, leave of an amount
/// (docs/LANGUAGE.md, "Operators").
#[derive(Clone, Copy, Debug, PartialEq, Eq)]
pub enum Rest {
    /// The first.
    First,
    /// The last.
    Last,
    /// The first of those with the least weight.
    Min,
    /// The first of those with the greatest weight.
    Max,
}

/// What a line of an aggregation map does along its relation (docs/LANGUAGE.md, "Operators").
#[derive(Clone, Copy, Debug, PartialEq, Eq)]
pub enum Operator {
    /// Adds the cells up.
    Sum,
    /// Takes the least cell.
    Min,
    /// Takes the greatest cell.
    Max,
    /// Takes the mean of the cells that aren't NA.
    Average,
    /// Counts the cells that aren't NA.
    Count,
    /// Allocates.
    Spread(Spread),
}
