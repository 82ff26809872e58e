ghost use Rattle.std.specs.Prelude.{◌≡◌, ◌≤◌, length};
ghost use Rattle.dml_grammar.specs.Grammar as g;
ghost use Rattle.dml_grammar.specs.inside.Tables.{reads};
ghost use Rattle.dml_grammar.specs.inside.Steps.{Read};

use aw_cell::Text;
use aw_lists::List;
use dml_cursor::Tokens;
use dml_exprs::{followed, names, texts};
use dml_grammar::Fault;
use dml_simple::simple;
use dml_tree::{Mode, Place, Sort, Statement, Word};
use std::alloc::Global;

#[tactic(auto, using(crate::proofs::Rules::attachment_is))]
fn attachment(tokens: &mut Tokens<'_>) -> Result<Statement, Fault>
    ensures read { Read (reads g.attachment tokens.old.rest.now) result tokens.new.rest.now }
    ensures less { length tokens.new.rest.now ≤ length tokens.old.rest.now }
{
    if tokens.sees_word(Word::Attach) {
        tokens.word(Word::Attach)?;
        if tokens.sees_word(Word::Multi) {
            tokens.word(Word::Multi)?;
            return Ok(Statement::Attach(Mode::Multi));
        }
        tokens.word(Word::Ro)?;
        return Ok(Statement::Attach(Mode::ReadOnly));
    }
    tokens.word(Word::Detach)?;
    Ok(Statement::Detach)
}

#[tactic(auto, using(crate::proofs::Rules::consistent_is))]
fn consistent(
    alloc: Global,
    plain: List<Text>,
    fresh: List<Text>,
    tokens: &mut Tokens<'_>,
) -> Result<Statement, Fault>
    ensures read { Read (reads (g.consistent plain fresh) tokens.old.rest.now) result tokens.new.rest.now }
    ensures less { length tokens.new.rest.now ≤ length tokens.old.rest.now }
{
    if !tokens.sees_word(Word::Consistent) {
        return Ok(Statement::Acquire(plain, fresh, List::new(alloc)));
    }
    tokens.word(Word::Consistent)?;
    tokens.word(Word::With)?;
    let same = names(alloc, tokens)?;
    Ok(Statement::Acquire(plain, fresh, same))
}

#[tactic(auto, using(crate::proofs::Rules::resynced_is, crate::proofs::Rules::same_part))]
fn resynced(alloc: Global, plain: List<Text>, tokens: &mut Tokens<'_>) -> Result<Statement, Fault>
    ensures read { Read (reads (g.resynced plain) tokens.old.rest.now) result tokens.new.rest.now }
    ensures less { length tokens.new.rest.now ≤ length tokens.old.rest.now }
{
    if !tokens.sees_word(Word::Resync) {
        return consistent(alloc, plain, List::new(alloc), tokens);
    }
    tokens.word(Word::Resync)?;
    let fresh = names(alloc, tokens)?;
    consistent(alloc, plain, fresh, tokens)
}

#[tactic(auto, using(crate::proofs::Rules::acquired_is, crate::proofs::Rules::same_part))]
fn acquired(alloc: Global, tokens: &mut Tokens<'_>) -> Result<Statement, Fault>
    ensures read { Read (reads g.acquired tokens.old.rest.now) result tokens.new.rest.now }
    ensures less { length tokens.new.rest.now ≤ length tokens.old.rest.now }
{
    if tokens.sees(Sort::Name) {
        let plain = names(alloc, tokens)?;
        return resynced(alloc, plain, tokens);
    }
    tokens.word(Word::Resync)?;
    let fresh = names(alloc, tokens)?;
    consistent(alloc, List::new(alloc), fresh, tokens)
}

#[tactic(auto, using(crate::proofs::Rules::owning_is, crate::proofs::Rules::same_part))]
fn owning(alloc: Global, tokens: &mut Tokens<'_>) -> Result<Statement, Fault>
    ensures read { Read (reads g.owning tokens.old.rest.now) result tokens.new.rest.now }
    ensures less { length tokens.new.rest.now ≤ length tokens.old.rest.now }
{
    if tokens.sees_word(Word::Acquire) {
        tokens.word(Word::Acquire)?;
        return acquired(alloc, tokens);
    }
    if tokens.sees_word(Word::Resync) {
        tokens.word(Word::Resync)?;
        return Ok(Statement::Resync(names(alloc, tokens)?));
    }
    if tokens.sees_word(Word::Release) {
        tokens.word(Word::Release)?;
        return Ok(Statement::Release(names(alloc, tokens)?));
    }
    if tokens.sees_word(Word::Revert) {
        tokens.word(Word::Revert)?;
        if tokens.sees(Sort::Name) {
            return Ok(Statement::Revert(names(alloc, tokens)?));
        }
        return Ok(Statement::Revert(List::new(alloc)));
    }
    tokens.word(Word::Update)?;
    if tokens.sees(Sort::Name) {
        return Ok(Statement::Update(names(alloc, tokens)?));
    }
    Ok(Statement::Update(List::new(alloc)))
}

#[tactic(auto, using(crate::proofs::Rules::place_is))]
fn place(tokens: &mut Tokens<'_>) -> Result<Place, Fault>
    ensures read { Read (reads g.place tokens.old.rest.now) result tokens.new.rest.now }
    ensures less { length tokens.new.rest.now ≤ length tokens.old.rest.now }
{
    if tokens.sees_word(Word::First) {
        tokens.word(Word::First)?;
        return Ok(Place::First);
    }
    if tokens.sees_word(Word::Last) {
        tokens.word(Word::Last)?;
        return Ok(Place::Last);
    }
    if tokens.sees_word(Word::Before) {
        tokens.word(Word::Before)?;
        return Ok(Place::Before(tokens.text()?));
    }
    tokens.word(Word::After)?;
    Ok(Place::After(tokens.text()?))
}

#[tactic(auto, using(crate::proofs::Rules::maintenance_is))]
fn maintenance(alloc: Global, dimension: Text, tokens: &mut Tokens<'_>) -> Result<Statement, Fault>
    ensures read { Read (reads (g.maintenance dimension) tokens.old.rest.now) result tokens.new.rest.now }
    ensures less { length tokens.new.rest.now ≤ length tokens.old.rest.now }
{
    if tokens.sees_word(Word::Add) {
        tokens.word(Word::Add)?;
        let values = texts(alloc, tokens)?;
        if tokens.sees_one(&[Word::First, Word::Last, Word::Before, Word::After]) {
            return Ok(Statement::Add(dimension, values, place(tokens)?));
        }
        return Ok(Statement::Add(dimension, values, Place::Last));
    }
    if tokens.sees_word(Word::Delete) {
        tokens.word(Word::Delete)?;
        return Ok(Statement::Delete(dimension, texts(alloc, tokens)?));
    }
    if tokens.sees_word(Word::Move) {
        tokens.word(Word::Move)?;
        let values = texts(alloc, tokens)?;
        return Ok(Statement::Move(dimension, values, place(tokens)?));
    }
    tokens.word(Word::Rename)?;
    let old = tokens.text()?;
    Ok(Statement::Rename(dimension, old, tokens.text()?))
}

#[tactic(auto, using(crate::proofs::Rules::maintained_is, crate::proofs::Rules::same_part))]
fn maintained(alloc: Global, tokens: &mut Tokens<'_>) -> Result<Statement, Fault>
    ensures read { Read (reads g.maintained tokens.old.rest.now) result tokens.new.rest.now }
    ensures less { length tokens.new.rest.now ≤ length tokens.old.rest.now }
{
    tokens.word(Word::Maintain)?;
    let dimension = tokens.name()?;
    maintenance(alloc, dimension, tokens)
}

#[tactic(auto, using(crate::proofs::Rules::line_is, crate::proofs::Rules::same_part))]
fn line(alloc: Global, tokens: &mut Tokens<'_>) -> Result<Statement, Fault>
    ensures read { Read (reads g.line tokens.old.rest.now) result tokens.new.rest.now }
    ensures less { length tokens.new.rest.now ≤ length tokens.old.rest.now }
{
    if tokens.sees_word(Word::Aw) {
        tokens.word(Word::Aw)?;
        return attachment(tokens);
    }
    if tokens.sees_word(Word::Commit) {
        tokens.word(Word::Commit)?;
        return Ok(Statement::Commit);
    }
    if tokens.sees_one(&[
        Word::Acquire,
        Word::Resync,
        Word::Release,
        Word::Revert,
        Word::Update,
    ]) {
        return owning(alloc, tokens);
    }
    if tokens.sees_word(Word::Maintain) {
        return maintained(alloc, tokens);
    }
    simple(alloc, tokens)
}

#[tactic(auto, using(crate::proofs::Rules::statement_is))]
pub(crate) fn whole_line(alloc: Global, tokens: &mut Tokens<'_>) -> Result<Statement, Fault>
    ensures read { Read (reads g.statement tokens.old.rest.now) result tokens.new.rest.now }
    ensures less { length tokens.new.rest.now ≤ length tokens.old.rest.now }
{
    followed(line(alloc, tokens)?, tokens.line_end())
}
