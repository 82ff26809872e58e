ghost use Rattle.std.specs.Prelude.{◌≡◌, ◌≤◌, ◌<◌, length, OnOk};
ghost use Rattle.dml_grammar.specs.Grammar as g;
ghost use Rattle.dml_grammar.specs.inside.Tables.{reads};
ghost use Rattle.dml_grammar.specs.inside.Steps.{Read};

use aw_cell::Text;
use aw_lists::List;
use dml_cursor::Tokens;
use dml_grammar::Fault;
use dml_tree::{Fix, Sort, Symbol, Target};
use std::alloc::Global;

#[tactic(auto, using(crate::proofs::Rules::next_name_is, crate::proofs::Rules::same_part))]
fn next_name(tokens: &mut Tokens<'_>) -> Result<Text, Fault>
    ensures read { Read (reads g.next_name tokens.old.rest.now) result tokens.new.rest.now }
    ensures less { length tokens.new.rest.now ≤ length tokens.old.rest.now }
    ensures fewer { OnOk result (length tokens.new.rest.now < length tokens.old.rest.now) }
{
    if tokens.sees_symbol(Symbol::Comma) {
        tokens.symbol(Symbol::Comma)?;
    }
    tokens.name()
}

/// Reads names.
#[tactic(auto, using(crate::proofs::Rules::names_is, crate::proofs::Rules::more_names_is, crate::proofs::Rules::same_part))]
pub fn names(alloc: Global, tokens: &mut Tokens<'_>) -> Result<List<Text>, Fault>
    ensures read { Read (reads g.names tokens.old.rest.now) result tokens.new.rest.now }
    ensures less { length tokens.new.rest.now ≤ length tokens.old.rest.now }
{
    let mut names = List::new(alloc);
    let first = tokens.name()?;
    names.push(first)?;
    while tokens.sees_any(&[Sort::Symbol(Symbol::Comma), Sort::Name]) {
        let next = next_name(tokens)?;
        names.push(next)?;
    }
    Ok(names)
}

#[tactic(auto, using(crate::proofs::Rules::next_text_is, crate::proofs::Rules::same_part))]
fn next_text(tokens: &mut Tokens<'_>) -> Result<Text, Fault>
    ensures read { Read (reads g.next_text tokens.old.rest.now) result tokens.new.rest.now }
    ensures less { length tokens.new.rest.now ≤ length tokens.old.rest.now }
    ensures fewer { OnOk result (length tokens.new.rest.now < length tokens.old.rest.now) }
{
    if tokens.sees_symbol(Symbol::Comma) {
        tokens.symbol(Symbol::Comma)?;
    }
    tokens.text()
}

/// Reads texts.
#[tactic(auto, using(crate::proofs::Rules::texts_is, crate::proofs::Rules::more_texts_is, crate::proofs::Rules::same_part))]
pub fn texts(alloc: Global, tokens: &mut Tokens<'_>) -> Result<List<Text>, Fault>
    ensures read { Read (reads g.texts tokens.old.rest.now) result tokens.new.rest.now }
    ensures less { length tokens.new.rest.now ≤ length tokens.old.rest.now }
{
    let mut texts = List::new(alloc);
    let first = tokens.text()?;
    texts.push(first)?;
    while tokens.sees_any(&[Sort::Symbol(Symbol::Comma), Sort::Text]) {
        let next = next_text(tokens)?;
        texts.push(next)?;
    }
    Ok(texts)
}

#[tactic(auto, using(crate::proofs::Rules::fix_is))]
fn fix(tokens: &mut Tokens<'_>) -> Result<Fix, Fault>
    ensures read { Read (reads g.fix tokens.old.rest.now) result tokens.new.rest.now }
    ensures less { length tokens.new.rest.now ≤ length tokens.old.rest.now }
    ensures fewer { OnOk result (length tokens.new.rest.now < length tokens.old.rest.now) }
{
    let dimension = tokens.name()?;
    let value = tokens.text()?;
    Ok(Fix { dimension, value })
}

#[tactic(auto, using(crate::proofs::Rules::fixes_is, crate::proofs::Rules::more_fixes_is, crate::proofs::Rules::same_part))]
fn fixes(alloc: Global, tokens: &mut Tokens<'_>) -> Result<List<Fix>, Fault>
    ensures read { Read (reads g.fixes tokens.old.rest.now) result tokens.new.rest.now }
    ensures less { length tokens.new.rest.now ≤ length tokens.old.rest.now }
{
    let mut fixes = List::new(alloc);
    let first = fix(tokens)?;
    fixes.push(first)?;
    while tokens.sees_symbol(Symbol::Comma) {
        tokens.symbol(Symbol::Comma)?;
        let next = fix(tokens)?;
        fixes.push(next)?;
    }
    Ok(fixes)
}

/// Reads a target: an object, with the values at which its dimensions are fixed.
#[tactic(auto, using(crate::proofs::Rules::target_is))]
pub fn target(alloc: Global, tokens: &mut Tokens<'_>) -> Result<Target, Fault>
    ensures read { Read (reads g.target tokens.old.rest.now) result tokens.new.rest.now }
    ensures less { length tokens.new.rest.now ≤ length tokens.old.rest.now }
{
    let name = tokens.name()?;
    if !tokens.sees_symbol(Symbol::Open) {
        return Ok(Target {
            name,
            fixes: List::new(alloc),
        });
    }
    tokens.symbol(Symbol::Open)?;
    let fixes = fixes(alloc, tokens)?;
    tokens.symbol(Symbol::Close)?;
    Ok(Target { name, fixes })
}
