ghost use Rattle.std.specs.Prelude.{◌≡◌, ◌⊎◌, ◌<◌, ◌-◌, ◌^◌, ◌++◌, ◌==◌, IfOk, OnOk, Ok, Err, length, map};
ghost use Rattle.std.specs.List.{slice_split};
ghost use Rattle.agg_map.specs.Maps as spec;
ghost use Rattle.agg_map.specs.Texts as texts;
ghost use Rattle.agg_map.specs.inside.Telling.{Tells, Says};
ghost use Rattle.dml_lines.specs.Lines.{definition_in as definition_by};

use crate::checking::line_in;
use crate::fault::MapFault;
use crate::map::AggMap;
use aw_lists::List;
use aw_schema::Catalogue;
use dml_grammar::ParseFault;
use dml_lines::definition_in;
use dml_tree::{Defined, Definition, MapLine as Written};
use std::alloc::{AllocError, Global};

/// What stands between the line ends of a text.
fn pieces(alloc: Global, text: &[u8]) -> Result<Vec<&[u8]>, AllocError>
    ensures { IfOk result (λ pieces. map (λ piece. piece.now) pieces.items ≡ slice_split (λ byte. byte == 10) text.now) }
{
    text.split(|byte| *byte == b'\n').collect(alloc)
}

fn add_pieces(alloc: Global, pieces: &[&[u8]], into: &mut List<List<u8>>) -> Result<(), AllocError>
    ensures { OnOk result (into.new ≡ into.old ++ map (λ piece. piece.now) pieces.now) }
{
    for piece in pieces {
        into.push(List::from_slice(alloc, piece)?)?;
    }
    Ok(())
}

/// Adds the lines of a text.
fn add_lines(alloc: Global, text: &[u8], into: &mut List<List<u8>>) -> Result<(), AllocError>
    ensures { OnOk result (into.new ≡ into.old ++ texts.text_lines text.now) }
{
    match text {
        [] => Ok(()),
        [..] => add_pieces(alloc, &pieces(alloc, text)?, into),
    }
}

/// The lines of a definition whose body is a text.
fn block_of(alloc: Global, text: &[u8]) -> Result<List<List<u8>>, AllocError>
    ensures { IfOk result (λ lines. lines ≡ texts.block_of text.now) }
{
    let mut lines = List::new(alloc);
    lines.push(List::from_slice(alloc, b"DEFINE a AGGMAP")?)?;
    add_lines(alloc, text, &mut lines)?;
    lines.push(List::from_slice(alloc, b"END")?)?;
    Ok(lines)
}

fn definition_of(alloc: Global, text: &[u8]) -> Result<Definition, ParseFault>
    requires short { length text.now < 2 ^ 32 - 1 }
    ensures { Says (definition_by (texts.block_of text.now)) result }
{
    match block_of(alloc, text) {
        Ok(lines) => match definition_in(alloc, &lines) {
            Ok(definition) => Ok(definition),
            Err(fault) => Err(fault),
        },
        Err(_) => Err(ParseFault::NoMemory),
    }
}

fn lines_in(alloc: Global, catalogue: &Catalogue, written: &[Written]) -> Result<AggMap, MapFault>
    ensures { Tells (spec.lines_in catalogue.now written.now) result }
{
    let mut lines = List::new(alloc);
    let mut dimensions = List::new(alloc);
    for line in written {
        match line_in(catalogue, lines.as_slice(), dimensions.as_slice(), line) {
            Ok((read, dimension)) => {
                lines.push(read)?;
                dimensions.push(dimension)?;
            }
            Err(fault) => return Err(fault),
        }
    }
    Ok(AggMap::of(lines, dimensions))
}

/// The fault of a block as one of the text inside it.
fn fault_of(fault: ParseFault) -> MapFault
    ensures { result ≡ texts.fault_of fault }
{
    match fault {
        ParseFault::Syntax { line, column } => MapFault::Syntax {
            line: line.saturating_sub(1),
            column,
        },
        ParseFault::NotHere { line } => MapFault::Syntax {
            line: line.saturating_sub(1),
            column: 1,
        },
        ParseFault::NoMemory => MapFault::NoMemory,
    }
}

fn map_of(alloc: Global, catalogue: &Catalogue, what: &Defined) -> Result<AggMap, MapFault>
    ensures { Tells (texts.map_of catalogue.now what.now) result }
{
    match what {
        Defined::AggMap(lines) => lines_in(alloc, catalogue, lines.as_slice()),
        Defined::Dimension
        | Defined::Relation(..)
        | Defined::ValueSet(_)
        | Defined::Variable(..)
        | Defined::Formula(..)
        | Defined::Program(_) => Err(MapFault::Syntax { line: 1, column: 1 }),
    }
}

#[tactic(auto, using(crate::proofs::Blocks::map_told, crate::proofs::Blocks::fault_told))]
pub(crate) fn read_map(
    alloc: Global,
    text: &[u8],
    catalogue: &Catalogue,
) -> Result<AggMap, MapFault>
    requires short { length text.now < 2 ^ 32 - 1 }
    ensures { Tells (texts.map_in catalogue.now text.now) result }
{
    match definition_of(alloc, text) {
        Ok(definition) => map_of(alloc, catalogue, &definition.what),
        Err(fault) => Err(fault_of(fault)),
    }
}
