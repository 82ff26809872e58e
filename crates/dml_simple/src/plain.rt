ghost use Rattle.std.specs.Prelude.{◌≡◌, ◌≤◌, length};
ghost use Rattle.dml_grammar.specs.Grammar as g;
ghost use Rattle.dml_grammar.specs.inside.Tables.{reads};
ghost use Rattle.dml_grammar.specs.inside.Steps.{Read};

use crate::selects::select;
use aw_lists::List;
use dml_cursor::Tokens;
use dml_exprs::{expr, followed, target, with};
use dml_grammar::Fault;
use dml_tree::{Expr, Sort, Statement, Symbol, Word};
use std::alloc::Global;

#[tactic(auto, using(crate::proofs::Rules::limit_is))]
fn limit(alloc: Global, tokens: &mut Tokens<'_>) -> Result<Statement, Fault>
    ensures read { Read (reads g.limit tokens.old.rest.now) result tokens.new.rest.now }
    ensures less { length tokens.new.rest.now ≤ length tokens.old.rest.now }
{
    tokens.word(Word::Limit)?;
    let name = tokens.name()?;
    let limiting = tokens.limiting()?;
    Ok(Statement::Limit(name, limiting, select(alloc, tokens)?))
}

#[tactic(auto, using(crate::proofs::Rules::aggregate_is))]
fn aggregate(tokens: &mut Tokens<'_>) -> Result<Statement, Fault>
    ensures read { Read (reads g.aggregate tokens.old.rest.now) result tokens.new.rest.now }
    ensures less { length tokens.new.rest.now ≤ length tokens.old.rest.now }
{
    tokens.word(Word::Aggregate)?;
    let variable = tokens.name()?;
    tokens.word(Word::Using)?;
    Ok(Statement::Aggregate(variable, tokens.name()?))
}

#[tactic(auto, using(crate::proofs::Rules::allocate_is))]
fn allocate(tokens: &mut Tokens<'_>) -> Result<Statement, Fault>
    ensures read { Read (reads g.allocate tokens.old.rest.now) result tokens.new.rest.now }
    ensures less { length tokens.new.rest.now ≤ length tokens.old.rest.now }
{
    tokens.word(Word::Allocate)?;
    let source = tokens.name()?;
    tokens.word(Word::Basis)?;
    let basis = tokens.name()?;
    tokens.word(Word::Target)?;
    let target = tokens.name()?;
    tokens.word(Word::Using)?;
    Ok(Statement::Allocate(source, basis, target, tokens.name()?))
}

#[tactic(auto, using(crate::proofs::Rules::arguments_is, crate::proofs::Rules::more_arguments_is, crate::proofs::Rules::same_part))]
fn arguments(alloc: Global, tokens: &mut Tokens<'_>) -> Result<List<Expr>, Fault>
    ensures read { Read (reads g.arguments tokens.old.rest.now) result tokens.new.rest.now }
    ensures less { length tokens.new.rest.now ≤ length tokens.old.rest.now }
{
    let mut arguments = List::new(alloc);
    let first = expr(alloc, tokens)?;
    arguments.push(first)?;
    while tokens.sees_symbol(Symbol::Comma) {
        tokens.symbol(Symbol::Comma)?;
        let next = expr(alloc, tokens)?;
        arguments.push(next)?;
    }
    Ok(arguments)
}

#[tactic(auto, using(crate::proofs::Rules::call_is))]
fn call(alloc: Global, tokens: &mut Tokens<'_>) -> Result<Statement, Fault>
    ensures read { Read (reads g.call tokens.old.rest.now) result tokens.new.rest.now }
    ensures less { length tokens.new.rest.now ≤ length tokens.old.rest.now }
{
    tokens.word(Word::Call)?;
    let program = tokens.name()?;
    if !tokens.sees_symbol(Symbol::Open) {
        return Ok(Statement::Call(program, List::new(alloc)));
    }
    tokens.symbol(Symbol::Open)?;
    if tokens.sees_symbol(Symbol::Close) {
        tokens.symbol(Symbol::Close)?;
        return Ok(Statement::Call(program, List::new(alloc)));
    }
    let arguments = arguments(alloc, tokens)?;
    tokens.symbol(Symbol::Close)?;
    Ok(Statement::Call(program, arguments))
}

/// Reads a statement that may stand in a line and in a step.
#[tactic(auto, using(crate::proofs::Rules::simple_is, crate::proofs::Rules::same_part))]
pub fn simple(alloc: Global, tokens: &mut Tokens<'_>) -> Result<Statement, Fault>
    ensures read { Read (reads g.simple tokens.old.rest.now) result tokens.new.rest.now }
    ensures less { length tokens.new.rest.now ≤ length tokens.old.rest.now }
{
    if tokens.sees(Sort::Name) {
        let to = followed(target(alloc, tokens)?, tokens.symbol(Symbol::Equals))?;
        let (to, value) = with(to, expr(alloc, tokens))?;
        return Ok(Statement::Assign(to, value));
    }
    if tokens.sees_word(Word::Show) {
        tokens.word(Word::Show)?;
        return Ok(Statement::Show(expr(alloc, tokens)?));
    }
    if tokens.sees_word(Word::Report) {
        tokens.word(Word::Report)?;
        return Ok(Statement::Report(expr(alloc, tokens)?));
    }
    if tokens.sees_word(Word::Limit) {
        return limit(alloc, tokens);
    }
    if tokens.sees_word(Word::Aggregate) {
        return aggregate(tokens);
    }
    if tokens.sees_word(Word::Allocate) {
        return allocate(tokens);
    }
    call(alloc, tokens)
}
