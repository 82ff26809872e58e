ghost use Rattle.std.specs.Prelude.{◌≡◌, ◌⊎◌, ℕ, IfOk, Ok, Err};
ghost use Rattle.dml_grammar.specs.Grammar as g;
ghost use Rattle.dml_grammar.specs.PlacedTokens.{placed};
ghost use Rattle.dml_grammar.specs.Sentences.{Is, IsRefusedAt, statement_refusal};
ghost use Rattle.dml_grammar.specs.inside.Answering.{IsAnswered, IsTold};

use crate::lines::whole_line;
use aw_lists::List;
use dml_cursor::Tokens;
use dml_grammar::{ParseFault, Placed, Refusal, kept, place_line, settled, statement_fault};
use dml_tree::{Statement, Token};
use std::alloc::Global;

fn answer(alloc: Global, tokens: &[Placed]) -> Result<Statement, Refusal>
    ensures { IsAnswered g.statement tokens.now result }
{
    let most = kept(tokens);
    let mut front = Tokens {
        rest: &tokens[..most],
    };
    let read = whole_line(alloc, &mut front);
    settled(read, most - front.rest.len(), tokens.len())
}

#[tactic(auto, using(crate::proofs::Answers::at_place))]
fn read_placed(alloc: Global, tokens: &[Placed]) -> Result<Statement, ParseFault>
    ensures { IsTold g.statement (statement_refusal tokens.now) tokens.now result }
{
    match answer(alloc, tokens) {
        Ok(statement) => Ok(statement),
        Err(refusal) => match refusal {
            Refusal::At(at) => Err(statement_fault(tokens, at)),
            Refusal::NoMemory => Err(ParseFault::NoMemory),
        },
    }
}

fn read_line(alloc: Global, tokens: &List<Token>) -> Result<Statement, ParseFault>
    ensures { IsTold g.statement (statement_refusal (placed 0 tokens.now)) (placed 0 tokens.now) result }
{
    let mut line = List::new(alloc);
    place_line(0, tokens.as_slice(), &mut line)?;
    read_placed(alloc, line.as_slice())
}

/// The statement that the tokens of a line are. It is refused with `Syntax` exactly at the first token
/// with which the tokens up to it begin no statement, and with `NoMemory` where memory is wanting; it
/// never answers `NotHere`. See docs/LANGUAGE.md, "How a line is read".
#[tactic(auto, using(crate::proofs::Answers::accepted, crate::proofs::Answers::exact, crate::proofs::Answers::refused, crate::proofs::Answers::cause))]
pub fn statement(alloc: Global, tokens: &List<Token>) -> Result<Statement, ParseFault>
    ensures accepted { IfOk result (λ t. Is g.statement (placed 0 tokens.now) t) }
    ensures exact { (t : Statement) → Is g.statement (placed 0 tokens.now) t → (result ≡ Ok t) ⊎ (result ≡ Err ParseFault.NoMemory) }
    ensures refused { (k : ℕ) → IsRefusedAt g.statement (placed 0 tokens.now) k → (result ≡ Err (statement_refusal (placed 0 tokens.now) k)) ⊎ (result ≡ Err ParseFault.NoMemory) }
    ensures cause { (f : ParseFault) → result ≡ Err f → (f ≡ ParseFault.NoMemory) ⊎ ((k : ℕ) × IsRefusedAt g.statement (placed 0 tokens.now) k × (f ≡ statement_refusal (placed 0 tokens.now) k)) }
{
    read_line(alloc, tokens)
}
