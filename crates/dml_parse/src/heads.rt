ghost use Rattle.std.specs.Prelude.{[], ◌≡◌, ◌≤◌, ◌<◌, length, OnOk};
ghost use Rattle.dml_grammar.specs.Grammar as g;
ghost use Rattle.dml_grammar.specs.inside.Tables.{reads};
ghost use Rattle.dml_grammar.specs.inside.Steps.{Read};

use crate::maps::map;
use crate::programs::body;
use aw_lists::List;
use dml_cursor::Tokens;
use dml_exprs::{expr, names, with};
use dml_grammar::Fault;
use dml_tree::{Defined, Definition, Symbol, Word};
use std::alloc::Global;

#[tactic(auto, using(crate::proofs::Rules::relation_is))]
fn relation(tokens: &mut Tokens<'_>) -> Result<Defined, Fault>
    ensures read { Read (reads g.relation tokens.old.rest.now) result tokens.new.rest.now }
    ensures less { length tokens.new.rest.now ≤ length tokens.old.rest.now }
{
    tokens.word(Word::Relation)?;
    let to = tokens.name()?;
    tokens.symbol(Symbol::Less)?;
    let from = tokens.name()?;
    tokens.symbol(Symbol::Greater)?;
    tokens.line_end()?;
    Ok(Defined::Relation(to, from))
}

#[tactic(auto, using(crate::proofs::Rules::variable_is))]
fn variable(alloc: Global, tokens: &mut Tokens<'_>) -> Result<Defined, Fault>
    ensures read { Read (reads g.variable tokens.old.rest.now) result tokens.new.rest.now }
    ensures less { length tokens.new.rest.now ≤ length tokens.old.rest.now }
{
    tokens.word(Word::Variable)?;
    let kind = tokens.kind()?;
    if !tokens.sees_symbol(Symbol::Less) {
        tokens.line_end()?;
        return Ok(Defined::Variable(kind, List::new(alloc)));
    }
    tokens.symbol(Symbol::Less)?;
    let dimensions = names(alloc, tokens)?;
    tokens.symbol(Symbol::Greater)?;
    tokens.line_end()?;
    Ok(Defined::Variable(kind, dimensions))
}

#[tactic(auto, using(crate::proofs::Rules::formula_is))]
fn formula(alloc: Global, tokens: &mut Tokens<'_>) -> Result<Defined, Fault>
    ensures read { Read (reads g.formula tokens.old.rest.now) result tokens.new.rest.now }
    ensures less { length tokens.new.rest.now ≤ length tokens.old.rest.now }
{
    let from = tokens.formula_from()?;
    let (value, to) = with(expr(alloc, tokens)?, tokens.formula_to())?;
    Ok(Defined::Formula(value, from, to))
}

#[tactic(auto, using(crate::proofs::Rules::defined_is, crate::proofs::Rules::same_part))]
fn defined(alloc: Global, tokens: &mut Tokens<'_>) -> Result<Defined, Fault>
    ensures read { Read (reads g.defined tokens.old.rest.now) result tokens.new.rest.now }
    ensures less { length tokens.new.rest.now ≤ length tokens.old.rest.now }
{
    if tokens.sees_word(Word::Dimension) {
        tokens.word(Word::Dimension)?;
        tokens.word(Word::Text)?;
        tokens.line_end()?;
        return Ok(Defined::Dimension);
    }
    if tokens.sees_word(Word::Relation) {
        return relation(tokens);
    }
    if tokens.sees_word(Word::ValueSet) {
        tokens.word(Word::ValueSet)?;
        let dimension = tokens.name()?;
        tokens.line_end()?;
        return Ok(Defined::ValueSet(dimension));
    }
    if tokens.sees_word(Word::Variable) {
        return variable(alloc, tokens);
    }
    if tokens.sees_word(Word::Formula) {
        return formula(alloc, tokens);
    }
    if tokens.sees_word(Word::Program) {
        tokens.word(Word::Program)?;
        tokens.line_end()?;
        return Ok(Defined::Program(body(alloc, tokens)?));
    }
    tokens.word(Word::AggMap)?;
    tokens.line_end()?;
    Ok(Defined::AggMap(map(alloc, tokens)?))
}

#[tactic(auto, using(crate::proofs::Rules::definition_is))]
pub(crate) fn whole_definition(alloc: Global, tokens: &mut Tokens<'_>) -> Result<Definition, Fault>
    ensures read { Read (reads g.definition tokens.old.rest.now) result tokens.new.rest.now }
    ensures less { length tokens.new.rest.now ≤ length tokens.old.rest.now }
{
    tokens.word(Word::Define)?;
    let name = tokens.name()?;
    let what = defined(alloc, tokens)?;
    Ok(Definition { name, what })
}
