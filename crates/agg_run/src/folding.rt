//! The fold over cells that is carried up a hierarchy.

ghost use Rattle.std.specs.Prelude.{◌≡◌, ◌^◌, ◌<ℤ◌, ◌≤ℤ◌, pos};
ghost use Rattle.aw_cell.specs.Rounding.{rounded};
ghost use Rattle.agg_run.specs.Numbers.{one_of};
ghost use Rattle.agg_run.specs.inside.Folds.{joined, mixed, fold_of, finished};

use aw_cell::{Kind, Operator};

/// A fold over cells that aren't NA, of which there is at least one.
#[derive(Clone, Copy)]
pub struct Fold {
    /// How many cells there are beside the first.
    pub others: u64,
    /// Their sum, or the least or greatest of them.
    pub number: i128,
}

/// What two numbers make. A sum wraps around: where the sum of all fits, nothing is lost by it.
#[tactic(auto, using(crate::proofs::Joining::wrapped))]
fn mixed(operator: Operator, one: i128, other: i128) -> i128
    ensures { result ≡ mixed operator one other }
{
    match operator {
        Operator::Min => one.min(other),
        Operator::Max => one.max(other),
        Operator::Sum | Operator::Average | Operator::Count | Operator::Spread(_) => {
            one.wrapping_add(other)
        }
    }
}

impl Fold {
    /// The fold over one cell.
    pub fn of(number: i128) -> Fold
        ensures { result ≡ fold_of number }
    {
        Fold { others: 0, number }
    }

    /// The fold over the cells of both.
    pub fn joined(self, operator: Operator, other: Fold) -> Fold
        ensures { result ≡ joined operator self other }
    {
        Fold {
            others: self.others.wrapping_add(other.others).wrapping_add(1),
            number: mixed(operator, self.number, other.number),
        }
    }

    /// What comes of the fold over all leaves of a cell.
    pub fn finished(self, kind: Kind, operator: Operator) -> i128
        ensures { result ≡ finished kind operator self }
    {
        let count = i128::from(self.others) + 1;
        match operator {
            Operator::Average => mean(self.number, count),
            Operator::Count => one_of(kind) * count,
            Operator::Sum | Operator::Min | Operator::Max | Operator::Spread(_) => self.number,
        }
    }
}

/// How many units one has.
fn one_of(kind: Kind) -> i128
    ensures value { result ≡ one_of kind }
    ensures small { (pos 0 ≤ℤ result) × (result ≤ℤ pos 10000) }
{
    match kind {
        Kind::Num => 10_000,
        Kind::Int | Kind::Text | Kind::Bool | Kind::Slot => 1,
    }
}

/// The whole number nearest to a quotient, and of two the one farther from zero.
fn mean(sum: i128, count: i128) -> i128
    requires some { pos 0 <ℤ count }
    requires few { count ≤ℤ pos (2 ^ 64) }
    ensures { result ≡ rounded sum count }
{
    let whole = sum / count;
    let rest = (sum % count).unsigned_abs();
    if 2 * rest < count.unsigned_abs() {
        whole
    } else if sum < 0 {
        whole - 1
    } else {
        whole + 1
    }
}
