ghost use Rattle.std.specs.Prelude.{◌≡◌, ◌≤◌, ◌<◌, length, OnOk};
ghost use Rattle.dml_grammar.specs.Grammar as g;
ghost use Rattle.dml_grammar.specs.inside.Tables.{reads};
ghost use Rattle.dml_grammar.specs.inside.Steps.{Read};

use aw_lists::List;
use dml_cursor::Tokens;
use dml_exprs::expr;
use dml_grammar::Fault;
use dml_tree::{Range, Select, Sort, Symbol, Word};
use std::alloc::Global;

#[tactic(auto, using(crate::proofs::Rules::range_is))]
fn range(tokens: &mut Tokens<'_>) -> Result<Range, Fault>
    ensures read { Read (reads g.range tokens.old.rest.now) result tokens.new.rest.now }
    ensures less { length tokens.new.rest.now ≤ length tokens.old.rest.now }
    ensures fewer { OnOk result (length tokens.new.rest.now < length tokens.old.rest.now) }
{
    let from = tokens.text()?;
    if !tokens.sees_word(Word::To) {
        return Ok(Range::Value(from));
    }
    tokens.word(Word::To)?;
    let to = tokens.text()?;
    Ok(Range::Through(from, to))
}

#[tactic(auto, using(crate::proofs::Rules::next_range_is, crate::proofs::Rules::same_part))]
fn next_range(tokens: &mut Tokens<'_>) -> Result<Range, Fault>
    ensures read { Read (reads g.next_range tokens.old.rest.now) result tokens.new.rest.now }
    ensures less { length tokens.new.rest.now ≤ length tokens.old.rest.now }
    ensures fewer { OnOk result (length tokens.new.rest.now < length tokens.old.rest.now) }
{
    if tokens.sees_symbol(Symbol::Comma) {
        tokens.symbol(Symbol::Comma)?;
    }
    range(tokens)
}

#[tactic(auto, using(crate::proofs::Rules::ranges_is, crate::proofs::Rules::more_ranges_is, crate::proofs::Rules::same_part))]
fn ranges(alloc: Global, tokens: &mut Tokens<'_>) -> Result<List<Range>, Fault>
    ensures read { Read (reads g.ranges tokens.old.rest.now) result tokens.new.rest.now }
    ensures less { length tokens.new.rest.now ≤ length tokens.old.rest.now }
{
    let mut ranges = List::new(alloc);
    let first = range(tokens)?;
    ranges.push(first)?;
    while tokens.sees_any(&[Sort::Symbol(Symbol::Comma), Sort::Text]) {
        let next = next_range(tokens)?;
        ranges.push(next)?;
    }
    Ok(ranges)
}

#[tactic(auto, using(crate::proofs::Rules::counted_is))]
fn counted(alloc: Global, tokens: &mut Tokens<'_>) -> Result<Select, Fault>
    ensures read { Read (reads g.counted tokens.old.rest.now) result tokens.new.rest.now }
    ensures less { length tokens.new.rest.now ≤ length tokens.old.rest.now }
{
    if tokens.sees_word(Word::First) {
        tokens.word(Word::First)?;
        return Ok(Select::First(tokens.count()?));
    }
    if tokens.sees_word(Word::Last) {
        tokens.word(Word::Last)?;
        return Ok(Select::Last(tokens.count()?));
    }
    if tokens.sees_word(Word::Top) {
        tokens.word(Word::Top)?;
        let count = tokens.count()?;
        tokens.word(Word::BasedOn)?;
        return Ok(Select::Top(count, expr(alloc, tokens)?));
    }
    tokens.word(Word::Bottom)?;
    let count = tokens.count()?;
    tokens.word(Word::BasedOn)?;
    Ok(Select::Bottom(count, expr(alloc, tokens)?))
}

#[tactic(auto, using(crate::proofs::Rules::kin_is))]
fn kin(tokens: &mut Tokens<'_>) -> Result<Select, Fault>
    ensures read { Read (reads g.kin tokens.old.rest.now) result tokens.new.rest.now }
    ensures less { length tokens.new.rest.now ≤ length tokens.old.rest.now }
{
    let kin = tokens.kinship()?;
    tokens.word(Word::Using)?;
    Ok(Select::Kin(kin, tokens.name()?))
}

#[tactic(auto, using(crate::proofs::Rules::select_is, crate::proofs::Rules::same_part))]
pub(crate) fn select(alloc: Global, tokens: &mut Tokens<'_>) -> Result<Select, Fault>
    ensures read { Read (reads g.select tokens.old.rest.now) result tokens.new.rest.now }
    ensures less { length tokens.new.rest.now ≤ length tokens.old.rest.now }
{
    if tokens.sees_word(Word::All) {
        tokens.word(Word::All)?;
        return Ok(Select::All);
    }
    if tokens.sees(Sort::Text) {
        return Ok(Select::Ranges(ranges(alloc, tokens)?));
    }
    if tokens.sees_one(&[Word::First, Word::Last, Word::Top, Word::Bottom]) {
        return counted(alloc, tokens);
    }
    if tokens.sees_one(&[
        Word::Parents,
        Word::Children,
        Word::Ancestors,
        Word::Descendants,
    ]) {
        return kin(tokens);
    }
    Ok(Select::Where(expr(alloc, tokens)?))
}
