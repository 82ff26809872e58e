ghost use Rattle.std.specs.Prelude.{[], ◌≡◌, ◌≤◌, ◌<◌, length, OnOk};
ghost use Rattle.dml_grammar.specs.Grammar as g;
ghost use Rattle.dml_grammar.specs.inside.Tables.{reads};
ghost use Rattle.dml_grammar.specs.inside.Steps.{Read};

use aw_cell::Text;
use aw_lists::List;
use dml_cursor::Tokens;
use dml_grammar::Fault;
use dml_tree::{MapLine, Remainder, Word};
use std::alloc::Global;

#[tactic(auto, using(crate::proofs::Rules::operated_is))]
fn operated(line: u32, relation: Text, tokens: &mut Tokens<'_>) -> Result<MapLine, Fault>
    ensures read { Read (reads (g.operated line relation) tokens.old.rest.now) result tokens.new.rest.now }
    ensures less { length tokens.new.rest.now ≤ length tokens.old.rest.now }
{
    if !tokens.sees_one(&[Word::Even, Word::HEven, Word::Proportional]) {
        let operator = tokens.combining()?;
        tokens.line_end()?;
        return Ok(MapLine {
            line,
            relation,
            operator,
            rest: Remainder::Unwritten,
        });
    }
    let operator = tokens.sharing()?;
    if !tokens.sees_word(Word::RemOperator) {
        tokens.line_end()?;
        return Ok(MapLine {
            line,
            relation,
            operator,
            rest: Remainder::Unwritten,
        });
    }
    tokens.word(Word::RemOperator)?;
    let rest = tokens.rest()?;
    tokens.line_end()?;
    Ok(MapLine {
        line,
        relation,
        operator,
        rest: Remainder::To(rest),
    })
}

#[tactic(auto, using(crate::proofs::Rules::map_line_is, crate::proofs::Rules::same_part))]
fn map_line(tokens: &mut Tokens<'_>) -> Result<MapLine, Fault>
    ensures read { Read (reads g.map_line tokens.old.rest.now) result tokens.new.rest.now }
    ensures less { length tokens.new.rest.now ≤ length tokens.old.rest.now }
    ensures fewer { OnOk result (length tokens.new.rest.now < length tokens.old.rest.now) }
{
    let line = tokens.line_of(Word::Relation)?;
    let relation = tokens.name()?;
    tokens.word(Word::Operator)?;
    operated(line, relation, tokens)
}

/// The lines of an aggmap behind its DEFINE line, with its END.
#[tactic(auto, using(crate::proofs::Rules::map_is, crate::proofs::Rules::more_map_is, crate::proofs::Rules::same_part))]
pub(crate) fn map(alloc: Global, tokens: &mut Tokens<'_>) -> Result<List<MapLine>, Fault>
    ensures read { Read (reads g.map tokens.old.rest.now) result tokens.new.rest.now }
    ensures less { length tokens.new.rest.now ≤ length tokens.old.rest.now }
{
    let mut lines = List::new(alloc);
    let first = map_line(tokens)?;
    lines.push(first)?;
    while tokens.sees_word(Word::Relation) {
        let next = map_line(tokens)?;
        lines.push(next)?;
    }
    tokens.word(Word::End)?;
    tokens.line_end()?;
    Ok(lines)
}
