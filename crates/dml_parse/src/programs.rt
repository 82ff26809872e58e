ghost use Rattle.std.specs.Prelude.{[], ◌≡◌, ◌≤◌, ◌<◌, length, OnOk};
ghost use Rattle.dml_grammar.specs.Grammar as g;
ghost use Rattle.dml_grammar.specs.inside.Tables.{reads};
ghost use Rattle.dml_grammar.specs.inside.Steps.{Read};

use crate::blocks::{sees_step, step};
use aw_lists::List;
use dml_cursor::Tokens;
use dml_grammar::Fault;
use dml_tree::{Local, Program, Word};
use sqlite_items::Items;
use std::alloc::Global;

#[tactic(auto, using(crate::proofs::Rules::local_is))]
fn local(line: u32, tokens: &mut Tokens<'_>) -> Result<Local, Fault>
    ensures read { Read (reads (g.local line) tokens.old.rest.now) result tokens.new.rest.now }
    ensures less { length tokens.new.rest.now ≤ length tokens.old.rest.now }
{
    let name = tokens.name()?;
    let kind = tokens.kind()?;
    tokens.line_end()?;
    Ok(Local { line, name, kind })
}

#[tactic(auto, using(crate::proofs::Rules::ending_is, crate::proofs::Rules::same_part))]
fn with_locals(
    alloc: Global,
    arguments: List<Local>,
    variables: List<Local>,
    tokens: &mut Tokens<'_>,
) -> Result<Program, Fault>
    ensures read { Read (reads (g.ending arguments variables []) tokens.old.rest.now) result tokens.new.rest.now }
    ensures less { length tokens.new.rest.now ≤ length tokens.old.rest.now }
{
    let mut steps = Items::new(alloc);
    while sees_step(tokens) {
        let next = step(alloc, tokens)?;
        steps.push(next)?;
    }
    tokens.word(Word::End)?;
    tokens.line_end()?;
    Ok(Program {
        arguments,
        variables,
        steps,
    })
}

#[tactic(auto, using(crate::proofs::Rules::variables_is, crate::proofs::Rules::same_part))]
fn with_arguments(
    alloc: Global,
    arguments: List<Local>,
    tokens: &mut Tokens<'_>,
) -> Result<Program, Fault>
    ensures read { Read (reads (g.variables arguments []) tokens.old.rest.now) result tokens.new.rest.now }
    ensures less { length tokens.new.rest.now ≤ length tokens.old.rest.now }
{
    let mut variables = List::new(alloc);
    while tokens.sees_word(Word::Variable) {
        let line = tokens.line_of(Word::Variable)?;
        let next = local(line, tokens)?;
        variables.push(next)?;
    }
    with_locals(alloc, arguments, variables, tokens)
}

/// The lines of a program behind its DEFINE line, with its END.
#[tactic(auto, using(crate::proofs::Rules::body_is, crate::proofs::Rules::same_part))]
pub(crate) fn body(alloc: Global, tokens: &mut Tokens<'_>) -> Result<Program, Fault>
    ensures read { Read (reads (g.body []) tokens.old.rest.now) result tokens.new.rest.now }
    ensures less { length tokens.new.rest.now ≤ length tokens.old.rest.now }
{
    let mut arguments = List::new(alloc);
    while tokens.sees_word(Word::Argument) {
        let line = tokens.line_of(Word::Argument)?;
        let next = local(line, tokens)?;
        arguments.push(next)?;
    }
    with_arguments(alloc, arguments, tokens)
}
