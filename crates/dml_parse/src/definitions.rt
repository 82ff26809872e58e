ghost use Rattle.std.specs.Prelude.{◌≡◌, ◌⊎◌, ℕ, IfOk, Ok, Err, length};
ghost use Rattle.dml_grammar.specs.Grammar as g;
ghost use Rattle.dml_grammar.specs.PlacedTokens.{block};
ghost use Rattle.dml_grammar.specs.Sentences.{Is, IsRefusedAt, definition_refusal};
ghost use Rattle.dml_grammar.specs.inside.Answering.{IsAnswered, IsTold};

use crate::heads::whole_definition;
use aw_lists::List;
use dml_cursor::Tokens;
use dml_grammar::{ParseFault, Placed, Refusal, definition_fault, kept, place_block, settled};
use dml_tree::{Definition, Token};
use std::alloc::Global;

fn answer(alloc: Global, tokens: &[Placed]) -> Result<Definition, Refusal>
    ensures { IsAnswered g.definition tokens.now result }
{
    let most = kept(tokens);
    let mut front = Tokens {
        rest: &tokens[..most],
    };
    let read = whole_definition(alloc, &mut front);
    settled(read, most - front.rest.len(), tokens.len())
}

#[tactic(auto, using(crate::proofs::Answers::at_place))]
fn read_placed(alloc: Global, lines: usize, tokens: &[Placed]) -> Result<Definition, ParseFault>
    ensures { IsTold g.definition (definition_refusal lines tokens.now) tokens.now result }
{
    match answer(alloc, tokens) {
        Ok(definition) => Ok(definition),
        Err(refusal) => match refusal {
            Refusal::At(at) => Err(definition_fault(lines, tokens, at)),
            Refusal::NoMemory => Err(ParseFault::NoMemory),
        },
    }
}

fn read_block(alloc: Global, lines: &List<List<Token>>) -> Result<Definition, ParseFault>
    ensures { IsTold g.definition (definition_refusal (length lines.now) (block lines.now)) (block lines.now) result }
{
    let mut tokens = List::new(alloc);
    place_block(lines.as_slice(), &mut tokens)?;
    read_placed(alloc, lines.len(), tokens.as_slice())
}

/// The definition that lines are: the tokens of the DEFINE line and, where it opens a block, of the
/// lines behind it up to its END line. Lines count from 1 in a block, and the line of a definition of
/// one line is 0. It is refused with `NotHere` or `Syntax` exactly at the first token with which the
/// tokens up to it begin no definition: with `NotHere` where the token is the first one of a line of a
/// program and is a word that begins no line of it. Without END it is refused in the line behind its
/// last one, at column 1. `NoMemory` is for want of memory. See docs/LANGUAGE.md, "How a line is read".
#[tactic(auto, using(crate::proofs::Answers::accepted, crate::proofs::Answers::exact, crate::proofs::Answers::refused, crate::proofs::Answers::cause))]
pub fn definition(alloc: Global, lines: &List<List<Token>>) -> Result<Definition, ParseFault>
    ensures accepted { IfOk result (λ t. Is g.definition (block lines.now) t) }
    ensures exact { (t : Definition) → Is g.definition (block lines.now) t → (result ≡ Ok t) ⊎ (result ≡ Err ParseFault.NoMemory) }
    ensures refused { (k : ℕ) → IsRefusedAt g.definition (block lines.now) k → (result ≡ Err (definition_refusal (length lines.now) (block lines.now) k)) ⊎ (result ≡ Err ParseFault.NoMemory) }
    ensures cause { (f : ParseFault) → result ≡ Err f → (f ≡ ParseFault.NoMemory) ⊎ ((k : ℕ) × IsRefusedAt g.definition (block lines.now) k × (f ≡ definition_refusal (length lines.now) (block lines.now) k)) }
{
    read_block(alloc, lines)
}
