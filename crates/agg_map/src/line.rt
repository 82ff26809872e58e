use aw_cell::{Operator, Rest};

/// A line of an aggregation map (docs/LANGUAGE.md, "Aggregation maps").
#[derive(Clone, Copy, Debug, PartialEq, Eq)]
pub struct MapLine {
    /// The number of the relation, which goes from a dimension to itself.
    pub relation: u16,
    /// What is done along it.
    pub operator: Operator,
    /// Which child gets what the shares leave: with EVEN, HEVEN and PROPORTIONAL alone.
    pub rest: Option<Rest>,
}
