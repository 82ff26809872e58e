//! What holds of aggregations.

ghost use Rattle.agg_run.specs.Laws.{SumsAreOverLeaves};

/// Where all lines are sums, the number at a combination of values is the sum of the numbers before over
/// the product of the leaves of its values (docs/LANGUAGE.md, "Aggregation").
pub fn sums_are_over_leaves()
    ensures { SumsAreOverLeaves }
{}
