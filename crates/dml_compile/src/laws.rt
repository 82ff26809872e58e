ghost use Rattle.dml_compile.specs.Laws.{AcceptedExpressionsHaveCode};

/// An accepted expression has code that is accepted, over formulas whose expressions are of their
/// kinds, as those of accepted formulas are. So `compile` never answers want of memory in place of a
/// bad op.
pub fn accepted_expressions_have_code()
    ensures { AcceptedExpressionsHaveCode }
{}
