ghost use Rattle.std.specs.Prelude.{◌≡◌, ◌≤◌, ◌<◌, length, IfOk};
ghost use Rattle.dml_forms.specs.Forms.{goes};
ghost use Rattle.dml_grammar.specs.Sorts.{sort};
ghost use Rattle.dml_grammar.specs.Grammar as g;
ghost use Rattle.dml_grammar.specs.inside.Tables.{reads, literals};
ghost use Rattle.dml_grammar.specs.inside.Steps.{Read};
ghost use Rattle.dml_exprs.specs.Nesting.{Nests};

use crate::held::{followed, three_boxes, two_boxes, with};
use crate::targets::target;
use dml_cursor::Tokens;
use dml_grammar::Fault;
use dml_tree::{Expr, Joint, Sort, Symbol, Word};
use sqlite_items::Boxed;
use std::alloc::{AllocError, Global};

fn joined(alloc: Global, joint: Joint, left: Expr, right: Expr) -> Result<Expr, AllocError>
    ensures { IfOk result (λ e. e ≡ Expr.Joined joint left right) }
{
    let (left, right) = two_boxes(alloc, left, right)?;
    Ok(Expr::Joined(joint, left, right))
}

fn chosen(alloc: Global, test: Expr, one: Expr, other: Expr) -> Result<Expr, AllocError>
    ensures { IfOk result (λ e. e ≡ Expr.If test one other) }
{
    let (test, one, other) = three_boxes(alloc, test, one, other)?;
    Ok(Expr::If(test, one, other))
}

#[tactic(auto, using(crate::proofs::Rules::literal_is, crate::proofs::Rules::same_part))]
fn literal(tokens: &mut Tokens<'_>) -> Result<Expr, Fault>
    ensures read { Read (reads g.literal tokens.old.rest.now) result tokens.new.rest.now }
    ensures less { length tokens.new.rest.now ≤ length tokens.old.rest.now }
{
    if tokens.sees_any(&[Sort::Integer, Sort::Whole, Sort::Decimal]) {
        return tokens.numeral();
    }
    if tokens.sees(Sort::Text) {
        return Ok(Expr::Text(tokens.text()?));
    }
    if tokens.sees_one(&[Word::Yes, Word::True]) {
        tokens.yes()?;
        return Ok(Expr::Truth(true));
    }
    if tokens.sees_one(&[Word::No, Word::False]) {
        tokens.no()?;
        return Ok(Expr::Truth(false));
    }
    tokens.word(Word::Na)?;
    Ok(Expr::Na)
}

fn sees_literal(tokens: &Tokens<'_>) -> bool
    ensures { result ≡ goes sort literals tokens.now.rest.now }
{
    tokens.sees_any(&[
        Sort::Integer,
        Sort::Whole,
        Sort::Decimal,
        Sort::Text,
        Sort::Word(Word::Yes),
        Sort::Word(Word::True),
        Sort::Word(Word::No),
        Sort::Word(Word::False),
        Sort::Word(Word::Na),
    ])
}

/// What reads an expression, with what reads the expressions inside it.
#[derive(Clone, Copy)]
pub(crate) struct Expressions<F> {
    pub alloc: Global,
    /// The expressions inside have fewer tokens than this.
    pub most: usize,
    pub expr: F,
}

impl<F: Fn(Global, &mut Tokens<'_>) -> Result<Expr, Fault>> Expressions<F> {
    fn expr(&self, tokens: &mut Tokens<'_>) -> Result<Expr, Fault>
        requires nests { Nests self.now.most (F.pre self.now.expr) (F.post self.now.expr) }
        requires inside { length tokens.old.rest.now < self.now.most }
        ensures read { Read (reads g.expr tokens.old.rest.now) result tokens.new.rest.now }
        ensures less { length tokens.new.rest.now ≤ length tokens.old.rest.now }
    {
        (self.expr)(self.alloc, tokens)
    }

    #[tactic(auto, using(crate::proofs::Rules::inner_is))]
    fn inner(&self, tokens: &mut Tokens<'_>) -> Result<Expr, Fault>
        requires nests { Nests self.now.most (F.pre self.now.expr) (F.post self.now.expr) }
        requires inside { length tokens.old.rest.now ≤ self.now.most }
        ensures read { Read (reads g.inner tokens.old.rest.now) result tokens.new.rest.now }
        ensures less { length tokens.new.rest.now ≤ length tokens.old.rest.now }
    {
        tokens.symbol(Symbol::Open)?;
        followed(self.expr(tokens)?, tokens.symbol(Symbol::Close))
    }

    #[tactic(auto, using(crate::proofs::Rules::pair_is))]
    fn pair(&self, tokens: &mut Tokens<'_>) -> Result<Expr, Fault>
        requires nests { Nests self.now.most (F.pre self.now.expr) (F.post self.now.expr) }
        requires inside { length tokens.old.rest.now ≤ self.now.most }
        ensures read { Read (reads g.pair tokens.old.rest.now) result tokens.new.rest.now }
        ensures less { length tokens.new.rest.now ≤ length tokens.old.rest.now }
    {
        let joint = tokens.function()?;
        tokens.symbol(Symbol::Open)?;
        let left = followed(self.expr(tokens)?, tokens.symbol(Symbol::Comma))?;
        let both = with(left, self.expr(tokens))?;
        let (left, right) = followed(both, tokens.symbol(Symbol::Close))?;
        Ok(joined(self.alloc, joint, left, right)?)
    }

    #[tactic(auto, using(crate::proofs::Rules::atom_is, crate::proofs::Rules::same_part))]
    fn atom(&self, tokens: &mut Tokens<'_>) -> Result<Expr, Fault>
        requires nests { Nests self.now.most (F.pre self.now.expr) (F.post self.now.expr) }
        requires inside { length tokens.old.rest.now ≤ self.now.most }
        ensures read { Read (reads g.atom tokens.old.rest.now) result tokens.new.rest.now }
        ensures less { length tokens.new.rest.now ≤ length tokens.old.rest.now }
    {
        if sees_literal(tokens) {
            return literal(tokens);
        }
        if tokens.sees_symbol(Symbol::Open) {
            let value = self.inner(tokens)?;
            return Ok(Expr::Grouped(Boxed::new(self.alloc, value)?));
        }
        if tokens.sees(Sort::Name) {
            return Ok(Expr::Object(target(self.alloc, tokens)?));
        }
        if tokens.sees_word(Word::Abs) {
            tokens.word(Word::Abs)?;
            let value = self.inner(tokens)?;
            return Ok(Expr::Abs(Boxed::new(self.alloc, value)?));
        }
        self.pair(tokens)
    }

    #[tactic(auto, using(crate::proofs::Rules::unary_is, crate::proofs::Rules::same_part))]
    fn unary(&self, tokens: &mut Tokens<'_>) -> Result<Expr, Fault>
        requires nests { Nests self.now.most (F.pre self.now.expr) (F.post self.now.expr) }
        requires inside { length tokens.old.rest.now ≤ self.now.most }
        ensures read { Read (reads g.unary tokens.old.rest.now) result tokens.new.rest.now }
        ensures less { length tokens.new.rest.now ≤ length tokens.old.rest.now }
    {
        if !tokens.sees_symbol(Symbol::Minus) {
            return self.atom(tokens);
        }
        tokens.symbol(Symbol::Minus)?;
        let value = self.unary(tokens)?;
        Ok(Expr::Negative(Boxed::new(self.alloc, value)?))
    }

    #[tactic(auto, using(crate::proofs::Rules::prod_is, crate::proofs::Rules::more_prod_is, crate::proofs::Rules::same_part))]
    fn product(&self, tokens: &mut Tokens<'_>) -> Result<Expr, Fault>
        requires nests { Nests self.now.most (F.pre self.now.expr) (F.post self.now.expr) }
        requires inside { length tokens.old.rest.now ≤ self.now.most }
        ensures read { Read (reads g.prod tokens.old.rest.now) result tokens.new.rest.now }
        ensures less { length tokens.new.rest.now ≤ length tokens.old.rest.now }
    {
        let mut left = self.unary(tokens)?;
        while tokens.sees_sign(&[Symbol::Star, Symbol::Slash]) {
            let (first, sign) = with(left, tokens.multiplicative())?;
            let (first, right) = with(first, self.unary(tokens))?;
            left = joined(self.alloc, sign, first, right)?;
        }
        Ok(left)
    }

    #[tactic(auto, using(crate::proofs::Rules::sum_is, crate::proofs::Rules::more_sum_is, crate::proofs::Rules::same_part))]
    fn sum(&self, tokens: &mut Tokens<'_>) -> Result<Expr, Fault>
        requires nests { Nests self.now.most (F.pre self.now.expr) (F.post self.now.expr) }
        requires inside { length tokens.old.rest.now ≤ self.now.most }
        ensures read { Read (reads g.sum tokens.old.rest.now) result tokens.new.rest.now }
        ensures less { length tokens.new.rest.now ≤ length tokens.old.rest.now }
    {
        let mut left = self.product(tokens)?;
        while tokens.sees_sign(&[Symbol::Plus, Symbol::Minus]) {
            let (first, sign) = with(left, tokens.additive())?;
            let (first, right) = with(first, self.product(tokens))?;
            left = joined(self.alloc, sign, first, right)?;
        }
        Ok(left)
    }

    #[tactic(auto, using(crate::proofs::Rules::cmp_is))]
    fn comparing(&self, tokens: &mut Tokens<'_>) -> Result<Expr, Fault>
        requires nests { Nests self.now.most (F.pre self.now.expr) (F.post self.now.expr) }
        requires inside { length tokens.old.rest.now ≤ self.now.most }
        ensures read { Read (reads g.cmp tokens.old.rest.now) result tokens.new.rest.now }
        ensures less { length tokens.new.rest.now ≤ length tokens.old.rest.now }
    {
        let left = self.sum(tokens)?;
        if !tokens.sees_one(&[Word::Eq, Word::Ne, Word::Lt, Word::Le, Word::Gt, Word::Ge]) {
            return Ok(left);
        }
        let (left, order) = with(left, tokens.comparison())?;
        let (left, right) = with(left, self.sum(tokens))?;
        Ok(joined(self.alloc, order, left, right)?)
    }

    #[tactic(auto, using(crate::proofs::Rules::not_is, crate::proofs::Rules::same_part))]
    fn negation(&self, tokens: &mut Tokens<'_>) -> Result<Expr, Fault>
        requires nests { Nests self.now.most (F.pre self.now.expr) (F.post self.now.expr) }
        requires inside { length tokens.old.rest.now ≤ self.now.most }
        ensures read { Read (reads g.not tokens.old.rest.now) result tokens.new.rest.now }
        ensures less { length tokens.new.rest.now ≤ length tokens.old.rest.now }
    {
        if !tokens.sees_word(Word::Not) {
            return self.comparing(tokens);
        }
        tokens.word(Word::Not)?;
        let value = self.negation(tokens)?;
        Ok(Expr::Not(Boxed::new(self.alloc, value)?))
    }

    #[tactic(auto, using(crate::proofs::Rules::and_is, crate::proofs::Rules::more_and_is, crate::proofs::Rules::same_part))]
    fn conjunction(&self, tokens: &mut Tokens<'_>) -> Result<Expr, Fault>
        requires nests { Nests self.now.most (F.pre self.now.expr) (F.post self.now.expr) }
        requires inside { length tokens.old.rest.now ≤ self.now.most }
        ensures read { Read (reads g.and tokens.old.rest.now) result tokens.new.rest.now }
        ensures less { length tokens.new.rest.now ≤ length tokens.old.rest.now }
    {
        let mut left = self.negation(tokens)?;
        while tokens.sees_word(Word::And) {
            let first = followed(left, tokens.word(Word::And))?;
            let (first, right) = with(first, self.negation(tokens))?;
            left = joined(self.alloc, Joint::And, first, right)?;
        }
        Ok(left)
    }

    #[tactic(auto, using(crate::proofs::Rules::or_is, crate::proofs::Rules::more_or_is, crate::proofs::Rules::same_part))]
    fn disjunction(&self, tokens: &mut Tokens<'_>) -> Result<Expr, Fault>
        requires nests { Nests self.now.most (F.pre self.now.expr) (F.post self.now.expr) }
        requires inside { length tokens.old.rest.now ≤ self.now.most }
        ensures read { Read (reads g.or tokens.old.rest.now) result tokens.new.rest.now }
        ensures less { length tokens.new.rest.now ≤ length tokens.old.rest.now }
    {
        let mut left = self.conjunction(tokens)?;
        while tokens.sees_word(Word::Or) {
            let first = followed(left, tokens.word(Word::Or))?;
            let (first, right) = with(first, self.conjunction(tokens))?;
            left = joined(self.alloc, Joint::Or, first, right)?;
        }
        Ok(left)
    }

    #[tactic(auto, using(crate::proofs::Rules::expr_is, crate::proofs::Rules::same_part))]
    fn conditional(&self, tokens: &mut Tokens<'_>) -> Result<Expr, Fault>
        requires nests { Nests self.now.most (F.pre self.now.expr) (F.post self.now.expr) }
        requires inside { length tokens.old.rest.now ≤ self.now.most }
        ensures read { Read (reads g.expr tokens.old.rest.now) result tokens.new.rest.now }
        ensures less { length tokens.new.rest.now ≤ length tokens.old.rest.now }
    {
        if !tokens.sees_word(Word::If) {
            return self.disjunction(tokens);
        }
        tokens.word(Word::If)?;
        let test = followed(self.expr(tokens)?, tokens.word(Word::Then))?;
        let both = with(test, self.expr(tokens))?;
        let both = followed(both, tokens.word(Word::Else))?;
        let ((test, one), other) = with(both, self.expr(tokens))?;
        Ok(chosen(self.alloc, test, one, other)?)
    }
}

/// Reads an expression.
pub fn expr(alloc: Global, tokens: &mut Tokens<'_>) -> Result<Expr, Fault>
    ensures read { Read (reads g.expr tokens.old.rest.now) result tokens.new.rest.now }
    ensures less { length tokens.new.rest.now ≤ length tokens.old.rest.now }
{
    Expressions {
        alloc,
        most: tokens.rest.len(),
        expr,
    }
    .conditional(tokens)
}
