ghost use Rattle.std.specs.Prelude.{[], ◌≡◌, ◌≤◌, ◌<◌, length, OnOk, true, false};
ghost use Rattle.dml_forms.specs.Forms.{goes};
ghost use Rattle.dml_grammar.specs.Sorts.{sort};
ghost use Rattle.dml_grammar.specs.Grammar as g;
ghost use Rattle.dml_grammar.specs.inside.Tables.{reads, simple_starts, step_starts};
ghost use Rattle.dml_parse.specs.Inside.{inside};
ghost use Rattle.dml_parse.specs.Nesting.{NestsSteps};
ghost use Rattle.dml_grammar.specs.inside.Steps.{Read, comes};

use dml_cursor::Tokens;
use dml_exprs::{expr, followed, with};
use dml_grammar::Fault;
use dml_simple::simple;
use dml_tree::{Expr, Sort, Step, Word};
use sqlite_items::Items;
use std::alloc::Global;

pub(crate) fn sees_step(tokens: &Tokens<'_>) -> bool
    ensures { result ≡ goes sort step_starts tokens.now.rest.now }
{
    tokens.sees_any(&[
        Sort::Word(Word::Return),
        Sort::Word(Word::While),
        Sort::Word(Word::For),
        Sort::Word(Word::If),
        Sort::Name,
        Sort::Word(Word::Show),
        Sort::Word(Word::Report),
        Sort::Word(Word::Limit),
        Sort::Word(Word::Aggregate),
        Sort::Word(Word::Allocate),
        Sort::Word(Word::Call),
    ])
}

fn sees_simple(tokens: &Tokens<'_>) -> bool
    ensures { result ≡ goes sort simple_starts tokens.now.rest.now }
{
    tokens.sees_any(&[
        Sort::Name,
        Sort::Word(Word::Show),
        Sort::Word(Word::Report),
        Sort::Word(Word::Limit),
        Sort::Word(Word::Aggregate),
        Sort::Word(Word::Allocate),
        Sort::Word(Word::Call),
    ])
}

#[tactic(auto, using(crate::proofs::Rules::step_is))]
fn plain_step(alloc: Global, tokens: &mut Tokens<'_>) -> Result<Step, Fault>
    requires { goes sort simple_starts tokens.old.rest.now ≡ true }
    ensures read { Read (reads g.step tokens.old.rest.now) result tokens.new.rest.now }
    ensures less { length tokens.new.rest.now ≤ length tokens.old.rest.now }
    ensures fewer { OnOk result (length tokens.new.rest.now < length tokens.old.rest.now) }
{
    let (statement, line) = with(simple(alloc, tokens)?, tokens.ending_line())?;
    Ok(Step::Plain(line, statement))
}

#[tactic(auto, using(crate::proofs::Rules::step_is))]
fn return_step(tokens: &mut Tokens<'_>) -> Result<Step, Fault>
    requires other { goes sort simple_starts tokens.old.rest.now ≡ false }
    requires comes { comes (Sort.Word Word.Return) tokens.old.rest.now ≡ true }
    ensures read { Read (reads g.step tokens.old.rest.now) result tokens.new.rest.now }
    ensures less { length tokens.new.rest.now ≤ length tokens.old.rest.now }
    ensures fewer { OnOk result (length tokens.new.rest.now < length tokens.old.rest.now) }
{
    let line = tokens.line_of(Word::Return)?;
    tokens.line_end()?;
    Ok(Step::Return(line))
}

/// What reads a step, with what reads the steps inside it.
#[derive(Clone, Copy)]
pub(crate) struct Blocks<F> {
    pub alloc: Global,
    /// The steps inside have fewer tokens than this.
    pub most: usize,
    pub steps: F,
}

impl<F: Fn(Global, &mut Tokens<'_>) -> Result<Items<Step>, Fault>> Blocks<F> {
    fn steps(&self, tokens: &mut Tokens<'_>) -> Result<Items<Step>, Fault>
        requires nests { NestsSteps self.now.most (F.pre self.now.steps) (F.post self.now.steps) }
        requires inside { length tokens.old.rest.now < self.now.most }
        ensures read { Read (reads (g.steps []) tokens.old.rest.now) result tokens.new.rest.now }
        ensures less { length tokens.new.rest.now ≤ length tokens.old.rest.now }
    {
        (self.steps)(self.alloc, tokens)
    }

    /// Reads DO, the end of its line and the steps up to DOEND.
    #[tactic(auto, using(crate::proofs::InsideSteps::inside_is, crate::proofs::Rules::same_part))]
    fn inside(&self, tokens: &mut Tokens<'_>) -> Result<Items<Step>, Fault>
        requires nests { NestsSteps self.now.most (F.pre self.now.steps) (F.post self.now.steps) }
        requires inside { length tokens.old.rest.now ≤ self.now.most }
        ensures read { Read (inside tokens.old.rest.now) result tokens.new.rest.now }
        ensures less { length tokens.new.rest.now ≤ length tokens.old.rest.now }
    {
        tokens.word(Word::Do)?;
        tokens.line_end()?;
        self.steps(tokens)
    }

    #[tactic(auto, using(crate::proofs::InsideSteps::otherwise_is))]
    fn otherwise(
        &self,
        line: u32,
        test: Expr,
        one: Items<Step>,
        tokens: &mut Tokens<'_>,
    ) -> Result<Step, Fault>
        requires nests { NestsSteps self.now.most (F.pre self.now.steps) (F.post self.now.steps) }
        requires inside { length tokens.old.rest.now ≤ self.now.most }
        ensures read { Read (reads (g.otherwise line test one) tokens.old.rest.now) result tokens.new.rest.now }
        ensures less { length tokens.new.rest.now ≤ length tokens.old.rest.now }
    {
        if !tokens.sees_word(Word::Else) {
            return Ok(Step::If(line, test, one, Items::new(self.alloc)));
        }
        let front = followed((test, one), tokens.word(Word::Else))?;
        let ((test, one), other) = with(front, self.inside(tokens))?;
        Ok(Step::If(line, test, one, other))
    }

    #[tactic(auto, using(crate::proofs::InsideSteps::choice_is, crate::proofs::Rules::same_part))]
    fn choice(&self, tokens: &mut Tokens<'_>) -> Result<Step, Fault>
        requires nests { NestsSteps self.now.most (F.pre self.now.steps) (F.post self.now.steps) }
        requires inside { length tokens.old.rest.now ≤ self.now.most }
        ensures read { Read (reads g.choice tokens.old.rest.now) result tokens.new.rest.now }
        ensures less { length tokens.new.rest.now ≤ length tokens.old.rest.now }
        ensures fewer { OnOk result (length tokens.new.rest.now < length tokens.old.rest.now) }
    {
        let line = tokens.line_of(Word::If)?;
        let test = followed(expr(self.alloc, tokens)?, tokens.word(Word::Then))?;
        let (test, one) = with(test, self.inside(tokens))?;
        self.otherwise(line, test, one, tokens)
    }

    #[tactic(auto, using(crate::proofs::InsideSteps::while_is))]
    fn while_step(&self, tokens: &mut Tokens<'_>) -> Result<Step, Fault>
        requires nests { NestsSteps self.now.most (F.pre self.now.steps) (F.post self.now.steps) }
        requires inside { length tokens.old.rest.now ≤ self.now.most }
        ensures read { Read (reads g.while tokens.old.rest.now) result tokens.new.rest.now }
        ensures less { length tokens.new.rest.now ≤ length tokens.old.rest.now }
        ensures fewer { OnOk result (length tokens.new.rest.now < length tokens.old.rest.now) }
    {
        let line = tokens.line_of(Word::While)?;
        let (test, steps) = with(expr(self.alloc, tokens)?, self.inside(tokens))?;
        Ok(Step::While(line, test, steps))
    }

    #[tactic(auto, using(crate::proofs::InsideSteps::for_is))]
    fn for_step(&self, tokens: &mut Tokens<'_>) -> Result<Step, Fault>
        requires nests { NestsSteps self.now.most (F.pre self.now.steps) (F.post self.now.steps) }
        requires inside { length tokens.old.rest.now ≤ self.now.most }
        ensures read { Read (reads g.for tokens.old.rest.now) result tokens.new.rest.now }
        ensures less { length tokens.new.rest.now ≤ length tokens.old.rest.now }
        ensures fewer { OnOk result (length tokens.new.rest.now < length tokens.old.rest.now) }
    {
        let line = tokens.line_of(Word::For)?;
        let (dimension, steps) = with(tokens.name()?, self.inside(tokens))?;
        Ok(Step::For(line, dimension, steps))
    }

    #[tactic(auto, using(crate::proofs::Rules::step_is, crate::proofs::Rules::same_part))]
    fn step(&self, tokens: &mut Tokens<'_>) -> Result<Step, Fault>
        requires nests { NestsSteps self.now.most (F.pre self.now.steps) (F.post self.now.steps) }
        requires inside { length tokens.old.rest.now ≤ self.now.most }
        ensures read { Read (reads g.step tokens.old.rest.now) result tokens.new.rest.now }
        ensures less { length tokens.new.rest.now ≤ length tokens.old.rest.now }
        ensures fewer { OnOk result (length tokens.new.rest.now < length tokens.old.rest.now) }
    {
        if sees_simple(tokens) {
            return plain_step(self.alloc, tokens);
        }
        if tokens.sees_word(Word::Return) {
            return return_step(tokens);
        }
        if tokens.sees_word(Word::While) {
            return self.while_step(tokens);
        }
        if tokens.sees_word(Word::For) {
            return self.for_step(tokens);
        }
        self.choice(tokens)
    }

    #[tactic(auto, using(crate::proofs::Rules::steps_is, crate::proofs::Rules::same_part))]
    fn all(&self, tokens: &mut Tokens<'_>) -> Result<Items<Step>, Fault>
        requires nests { NestsSteps self.now.most (F.pre self.now.steps) (F.post self.now.steps) }
        requires inside { length tokens.old.rest.now ≤ self.now.most }
        ensures read { Read (reads (g.steps []) tokens.old.rest.now) result tokens.new.rest.now }
        ensures less { length tokens.new.rest.now ≤ length tokens.old.rest.now }
    {
        let mut steps = Items::new(self.alloc);
        while sees_step(tokens) {
            let next = self.step(tokens)?;
            steps.push(next)?;
        }
        tokens.word(Word::DoEnd)?;
        tokens.line_end()?;
        Ok(steps)
    }
}

/// The steps of a block up to its DOEND.
fn steps(alloc: Global, tokens: &mut Tokens<'_>) -> Result<Items<Step>, Fault>
    ensures read { Read (reads (g.steps []) tokens.old.rest.now) result tokens.new.rest.now }
    ensures less { length tokens.new.rest.now ≤ length tokens.old.rest.now }
{
    Blocks {
        alloc,
        most: tokens.rest.len(),
        steps,
    }
    .all(tokens)
}

/// A step with the steps inside it.
pub(crate) fn step(alloc: Global, tokens: &mut Tokens<'_>) -> Result<Step, Fault>
    ensures read { Read (reads g.step tokens.old.rest.now) result tokens.new.rest.now }
    ensures less { length tokens.new.rest.now ≤ length tokens.old.rest.now }
    ensures fewer { OnOk result (length tokens.new.rest.now < length tokens.old.rest.now) }
{
    Blocks {
        alloc,
        most: tokens.rest.len(),
        steps,
    }
    .step(tokens)
}
