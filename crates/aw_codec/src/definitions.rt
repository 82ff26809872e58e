//! Definitions of a record.
ghost use Rattle.std.specs.Prelude.{◌≡◌, []};
ghost use Rattle.aw_schema.specs.declared.definition.DefKind.TheVariants.{Formula, Program, Aggmap};
ghost use Rattle.aw_codec.specs.Formats.{many};
ghost use Rattle.aw_codec.specs.Parsing.{Gives, reading};
ghost use Rattle.aw_codec.specs.RecordFormat as format;

use crate::fields::{byte_at, bytes_at, name_at, u16_at, u32_at};
use crate::keys::dimensions_at;
use crate::marks::{
    AGGMAP, BOOLEAN_TYPE, DIMENSION, FORMULA, INTEGER_TYPE, NUMBER_TYPE, PROGRAM, RELATION,
    TEXT_TYPE, VALUESET, VARIABLE,
};
use crate::record::BadRecord;
use aw_cell::Kind;
use aw_lists::List;
use aw_schema::{Def, DefKind};
use std::alloc::Global;

/// A text behind its length, and the offset behind it.
#[tactic(auto, using(crate::proofs::Readings::reading_bind), unfolding(crate::specs::RecordFormat::long_text))]
fn long_text_at(alloc: Global, bytes: &[u8], at: usize) -> Result<(List<u8>, usize), BadRecord>
    ensures { Gives (λ x. (x.0, x.1)) result (reading format.long_text bytes.now at) }
{
    let (size, at) = u32_at(bytes, at, 0)?;
    let (text, at) = bytes_at(bytes, at, size as usize)?;
    let text = List::from_slice(alloc, text)?;
    Ok((text, at))
}

/// A relation, and the offset behind it.
#[tactic(auto, using(crate::proofs::Readings::reading_bind), unfolding(crate::specs::RecordFormat::relation))]
fn relation_at(bytes: &[u8], at: usize) -> Result<(DefKind, usize), BadRecord>
    ensures { Gives (λ x. (x.0, x.1)) result (reading format.relation bytes.now at) }
{
    let (target, at) = u16_at(bytes, at, 0)?;
    let (base, at) = u16_at(bytes, at, 0)?;
    Ok((DefKind::Relation { target, base }, at))
}

/// A valueset, and the offset behind it.
#[tactic(auto, using(crate::proofs::Readings::reading_bind), unfolding(crate::specs::RecordFormat::valueset))]
fn valueset_at(bytes: &[u8], at: usize) -> Result<(DefKind, usize), BadRecord>
    ensures { Gives (λ x. (x.0, x.1)) result (reading format.valueset bytes.now at) }
{
    let (dimension, at) = u16_at(bytes, at, 0)?;
    Ok((DefKind::Valueset { dimension }, at))
}

/// The type of a variable, by its byte.
fn type_of(byte: u8) -> Kind
    ensures { result ≡ format.type_of byte }
{
    if byte == NUMBER_TYPE {
        Kind::Num
    } else if byte == INTEGER_TYPE {
        Kind::Int
    } else if byte == TEXT_TYPE {
        Kind::Text
    } else {
        Kind::Bool
    }
}

/// A variable, and the offset behind it.
#[tactic(auto, using(crate::proofs::Readings::reading_bind), unfolding(crate::specs::RecordFormat::variable))]
fn variable_at(bytes: &[u8], at: usize) -> Result<(DefKind, usize), BadRecord>
    ensures { Gives (λ x. (x.0, x.1)) result (reading format.variable bytes.now at) }
{
    let (byte, at) = byte_at(bytes, at, NUMBER_TYPE, BOOLEAN_TYPE)?;
    let (count, at) = byte_at(bytes, at, 0, 6)?;
    let (dimensions, at) = dimensions_at(bytes, at, count as usize)?;
    let kind = type_of(byte);
    Ok((DefKind::Variable { kind, dimensions }, at))
}

/// A formula, and the offset behind it.
#[tactic(auto, using(crate::proofs::Readings::reading_bind), unfolding(crate::specs::RecordFormat::texted))]
fn formula_at(alloc: Global, bytes: &[u8], at: usize) -> Result<(DefKind, usize), BadRecord>
    ensures { Gives (λ x. (x.0, x.1)) result (reading (format.texted Formula) bytes.now at) }
{
    let (text, at) = long_text_at(alloc, bytes, at)?;
    Ok((DefKind::Formula { text }, at))
}

/// A program, and the offset behind it.
#[tactic(auto, using(crate::proofs::Readings::reading_bind), unfolding(crate::specs::RecordFormat::texted))]
fn program_at(alloc: Global, bytes: &[u8], at: usize) -> Result<(DefKind, usize), BadRecord>
    ensures { Gives (λ x. (x.0, x.1)) result (reading (format.texted Program) bytes.now at) }
{
    let (text, at) = long_text_at(alloc, bytes, at)?;
    Ok((DefKind::Program { text }, at))
}

/// An aggmap, and the offset behind it.
#[tactic(auto, using(crate::proofs::Readings::reading_bind), unfolding(crate::specs::RecordFormat::texted))]
fn aggmap_at(alloc: Global, bytes: &[u8], at: usize) -> Result<(DefKind, usize), BadRecord>
    ensures { Gives (λ x. (x.0, x.1)) result (reading (format.texted Aggmap) bytes.now at) }
{
    let (text, at) = long_text_at(alloc, bytes, at)?;
    Ok((DefKind::Aggmap { text }, at))
}

/// What stands behind the byte of a kind, and the offset behind it.
fn kind_behind(
    alloc: Global,
    bytes: &[u8],
    at: usize,
    byte: u8,
) -> Result<(DefKind, usize), BadRecord>
    ensures { Gives (λ x. (x.0, x.1)) result (reading (format.behind_kind byte) bytes.now at) }
{
    if byte == DIMENSION {
        Ok((DefKind::Dimension, at))
    } else if byte == RELATION {
        relation_at(bytes, at)
    } else if byte == VALUESET {
        valueset_at(bytes, at)
    } else if byte == VARIABLE {
        variable_at(bytes, at)
    } else if byte == FORMULA {
        formula_at(alloc, bytes, at)
    } else if byte == PROGRAM {
        program_at(alloc, bytes, at)
    } else {
        aggmap_at(alloc, bytes, at)
    }
}

/// A definition, and the offset behind it.
#[tactic(auto, using(crate::proofs::Readings::reading_bind), unfolding(crate::specs::RecordFormat::definition))]
fn definition_at(alloc: Global, bytes: &[u8], at: usize) -> Result<(Def, usize), BadRecord>
    ensures { Gives (λ x. (x.0, x.1)) result (reading format.definition bytes.now at) }
{
    let (size, at) = byte_at(bytes, at, 1, 64)?;
    let (name, at) = name_at(bytes, at, size as usize)?;
    let (byte, at) = byte_at(bytes, at, DIMENSION, AGGMAP)?;
    let (kind, at) = kind_behind(alloc, bytes, at, byte)?;
    Ok((Def { name, kind }, at))
}

/// So many definitions, and the offset behind them.
pub fn definitions_at(
    alloc: Global,
    bytes: &[u8],
    at: usize,
    count: u16,
) -> Result<(List<Def>, usize), BadRecord>
    ensures { Gives (λ x. (x.0, x.1)) result (reading (many (λ _. format.definition) count []) bytes.now at) }
{
    let mut defs = Vec::new(alloc);
    let mut behind = at;
    for _ in 0..count {
        let (def, after) = definition_at(alloc, bytes, behind)?;
        defs.push(def)?;
        behind = after;
    }
    Ok((List::from_vec(defs), behind))
}
