ghost use Rattle.std.specs.Prelude.{◌≡◌, ◌+◌, ℕ};
ghost use Rattle.dml_tree.specs.Weight.{weight};
ghost use Rattle.dml_kinds.specs.Meanings.{names_in, weight_named};
ghost use Rattle.dml_kinds.specs.inside.Capped.{capped};

use crate::scope::Scope;
use aw_cell::Text;
use dml_tree::Expr;

impl<'a> Scope<'a> {
    /// What a name counts in an expression.
    fn name_weight(&self, name: &Text) -> u32
        ensures { result ≡ weight_named (names_in self.now.catalogue.now self.now.known.now self.now.locals.now) name.now }
    {
        match self.known(name) {
            Some(known) => known.meaning.weight(),
            None => 1,
        }
    }
}

/// One more than a weight.
fn one_more(weight: u32) -> u32
    ensures { (v : ℕ) → weight ≡ capped v → result ≡ capped (1 + v) }
{
    weight.saturating_add(1)
}

/// Two weights, and one more.
fn two_more(left: u32, right: u32) -> u32
    ensures { (v w : ℕ) → left ≡ capped v → right ≡ capped w → result ≡ capped (1 + v + w) }
{
    left.saturating_add(right).saturating_add(1)
}

/// Three weights, and one more.
fn three_more(condition: u32, first: u32, second: u32) -> u32
    ensures { (u v w : ℕ) → condition ≡ capped u → first ≡ capped v → second ≡ capped w → result ≡ capped (1 + u + v + w) }
{
    condition
        .saturating_add(first)
        .saturating_add(second)
        .saturating_add(1)
}

/// The weight of an expression, or the greatest number where it weighs more.
pub(crate) fn weight(scope: &Scope, expr: &Expr) -> u32
    ensures { result ≡ capped (weight (weight_named (names_in scope.now.catalogue.now scope.now.known.now scope.now.locals.now)) expr.now) }
{
    match expr {
        Expr::Na | Expr::Integer(_) | Expr::Number(_) | Expr::Text(_) | Expr::Truth(_) => 1,
        Expr::Object(target) => scope.name_weight(&target.name),
        Expr::Grouped(inner) => weight(scope, inner.get()),
        Expr::Not(operand) | Expr::Negative(operand) | Expr::Abs(operand) => {
            one_more(weight(scope, operand.get()))
        }
        Expr::Joined(_, left, right) => {
            two_more(weight(scope, left.get()), weight(scope, right.get()))
        }
        Expr::If(condition, first, second) => three_more(
            weight(scope, condition.get()),
            weight(scope, first.get()),
            weight(scope, second.get()),
        ),
    }
}
