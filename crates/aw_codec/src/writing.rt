//! The parts of a record, added at the end of its bytes.
ghost use Rattle.std.specs.Prelude.{◌≡◌, ◌<◌, ◌≤◌, ◌++◌, ◌∷◌, length, IsTrue, OnOk, All};
ghost use Rattle.std.specs.List.{flat_map, list_all};
ghost use Rattle.aw_lists.specs.Coord.{AreSlots};
ghost use Rattle.aw_cell.specs.Text.{is_text};
ghost use Rattle.aw_schema.specs.Definitions.{has_form, is_spellable};
ghost use Rattle.aw_body.specs.Fitting.{is_recorded};
ghost use Rattle.aw_codec.specs.Records.{AreInRange, IsDefinition, IsSpelled, IsKeyedCell, IsPatch, IsChange, is_recordable};
ghost use Rattle.aw_codec.specs.Spellings as spelling;

use crate::marks::{
    AGGMAP, BOOLEAN_CELL, BOOLEAN_TYPE, CELLS_PATCH, DIMENSION, FORMULA, INTEGER_CELL,
    INTEGER_TYPE, NA_CELL, NUMBER_CELL, NUMBER_TYPE, PROGRAM, RELATION, SLOT_CELL, SLOTS_PATCH,
    TEXT_CELL, TEXT_TYPE, VALUES_PATCH, VALUESET, VARIABLE,
};
use aw_body::{BodyPatch, Change};
use aw_cell::{Cell, Kind, Text};
use aw_lists::Coord;
use aw_schema::{Catalogue, Def, DefKind};
use std::alloc::AllocError;

/// Adds numbers of 2 bytes each.
fn push_shorts(out: &mut Vec<u8>, numbers: &[u16]) -> Result<(), AllocError>
    ensures value { OnOk result (out.new.items ≡ out.old.items ++ spelling.shorts numbers.now) }
    ensures range { OnOk result (AreSlots numbers.now) }
{
    for number in numbers {
        out.extend_from_slice(&number.to_be_bytes())?;
    }
    Ok(())
}

/// Adds a text behind its length of 1 byte.
fn push_text(out: &mut Vec<u8>, text: &Text) -> Result<(), AllocError>
    ensures value { OnOk result (out.new.items ≡ out.old.items ++ length text.now ∷ text.now) }
    ensures text { IsTrue (is_text text.now) }
{
    let bytes = text.bytes();
    out.push(bytes.len() as u8)?;
    out.extend_from_slice(bytes)?;
    Ok(())
}

/// Adds a text behind its length of 4 bytes.
fn push_long_text(out: &mut Vec<u8>, text: &[u8]) -> Result<(), AllocError>
    requires { length text.now < 4294967296 }
    ensures value { OnOk result (out.new.items ≡ out.old.items ++ spelling.long_text text.now) }
    ensures range { OnOk result (All (λ b. b < 256) text.now) }
{
    out.extend_from_slice(&(text.len() as u32).to_be_bytes())?;
    out.extend_from_slice(text)?;
    Ok(())
}

/// The byte of a variable's type.
fn type_byte(kind: Kind) -> u8
    ensures { result ≡ spelling.type_byte kind }
{
    match kind {
        Kind::Num => NUMBER_TYPE,
        Kind::Int => INTEGER_TYPE,
        Kind::Text => TEXT_TYPE,
        Kind::Bool => BOOLEAN_TYPE,
        Kind::Slot => 0,
    }
}

/// Adds what a definition says behind its name.
fn push_kind(out: &mut Vec<u8>, kind: &DefKind) -> Result<(), AllocError>
    requires { IsTrue (has_form kind.now) }
    ensures value { OnOk result (out.new.items ≡ out.old.items ++ spelling.kind kind.now) }
    ensures range { OnOk result (AreInRange kind.now) }
{
    match kind {
        DefKind::Dimension => out.push(DIMENSION)?,
        DefKind::Relation { target, base } => {
            out.push(RELATION)?;
            out.extend_from_slice(&target.to_be_bytes())?;
            out.extend_from_slice(&base.to_be_bytes())?;
        }
        DefKind::Valueset { dimension } => {
            out.push(VALUESET)?;
            out.extend_from_slice(&dimension.to_be_bytes())?;
        }
        DefKind::Variable { kind, dimensions } => {
            let slots = dimensions.slots();
            out.extend_from_slice(&[VARIABLE, type_byte(*kind), slots.len() as u8])?;
            push_shorts(out, slots)?;
        }
        DefKind::Formula { text } => {
            out.push(FORMULA)?;
            push_long_text(out, text.as_slice())?;
        }
        DefKind::Program { text } => {
            out.push(PROGRAM)?;
            push_long_text(out, text.as_slice())?;
        }
        DefKind::Aggmap { text } => {
            out.push(AGGMAP)?;
            push_long_text(out, text.as_slice())?;
        }
    }
    Ok(())
}

/// Adds a definition.
#[tactic(auto, using(crate::proofs::Accepted::spellable_form))]
fn push_definition(out: &mut Vec<u8>, def: &Def) -> Result<(), AllocError>
    requires { IsTrue (is_spellable def.now) }
    ensures value { OnOk result (out.new.items ≡ out.old.items ++ spelling.definition def.now) }
    ensures is { OnOk result (IsDefinition def.now) }
{
    push_text(out, &def.name)?;
    push_kind(out, &def.kind)
}

/// Adds the definitions of a catalogue.
pub fn push_definitions(out: &mut Vec<u8>, catalogue: &Catalogue) -> Result<(), AllocError>
    ensures value { OnOk result (out.new.items ≡ out.old.items ++ flat_map spelling.definition catalogue.now) }
    ensures are { OnOk result (All IsDefinition catalogue.now) }
{
    for object in 0..catalogue.len() as u16 {
        let Some(def) = catalogue.def(object) else {
            unreachable!();
        };
        push_definition(out, def)?;
    }
    Ok(())
}

/// Adds a cell.
fn push_cell(out: &mut Vec<u8>, cell: &Cell) -> Result<(), AllocError>
    requires { IsTrue (is_recorded cell.now) }
    ensures value { OnOk result (out.new.items ≡ out.old.items ++ spelling.cell cell.now) }
    ensures is { OnOk result (IsSpelled cell.now) }
{
    match cell {
        Cell::Na => out.push(NA_CELL)?,
        Cell::Num(number) => {
            out.push(NUMBER_CELL)?;
            out.extend_from_slice(&number.units().to_be_bytes())?;
        }
        Cell::Int(value) => {
            out.push(INTEGER_CELL)?;
            out.extend_from_slice(&value.to_be_bytes())?;
        }
        Cell::Text(text) => {
            out.push(TEXT_CELL)?;
            push_text(out, text)?;
        }
        Cell::Bool(truth) => out.extend_from_slice(&[BOOLEAN_CELL, u8::from(*truth)])?,
        Cell::Slot(slot) => {
            out.push(SLOT_CELL)?;
            out.extend_from_slice(&slot.to_be_bytes())?;
        }
    }
    Ok(())
}

/// Adds a cell of a patch, with its key.
fn push_keyed_cell(out: &mut Vec<u8>, change: &(Coord, Cell)) -> Result<(), AllocError>
    requires { IsTrue (is_recorded change.now.1) }
    ensures value { OnOk result (out.new.items ≡ out.old.items ++ spelling.keyed_cell change.now) }
    ensures is { OnOk result (IsKeyedCell change.now) }
{
    push_shorts(out, change.0.slots())?;
    push_cell(out, &change.1)
}

/// Adds a value of a dimension.
fn push_value(out: &mut Vec<u8>, entry: &(u16, Text)) -> Result<(), AllocError>
    ensures { OnOk result (out.new.items ≡ out.old.items ++ spelling.value entry.now) }
{
    out.extend_from_slice(&entry.0.to_be_bytes())?;
    push_text(out, &entry.1)
}

fn push_values(out: &mut Vec<u8>, entries: &[(u16, Text)]) -> Result<(), AllocError>
    ensures { OnOk result (out.new.items ≡ out.old.items ++ flat_map spelling.value entries.now) }
{
    for entry in entries {
        push_value(out, entry)?;
    }
    Ok(())
}

fn push_keyed_cells(out: &mut Vec<u8>, changes: &[(Coord, Cell)]) -> Result<(), AllocError>
    requires { IsTrue (list_all (λ change. is_recorded change.1) changes.now) }
    ensures value { OnOk result (out.new.items ≡ out.old.items ++ flat_map spelling.keyed_cell changes.now) }
    ensures are { OnOk result (All IsKeyedCell changes.now) }
{
    for change in changes {
        push_keyed_cell(out, change)?;
    }
    Ok(())
}

/// How many slots the first key has.
fn key_slots(changes: &[(Coord, Cell)]) -> u8
    ensures { result ≡ spelling.key_slots changes.now }
{
    match changes {
        [first, ..] => first.0.slots().len() as u8,
        [] => 0,
    }
}

/// Adds a patch, whose bytes are no more than a record has.
#[tactic(auto, using(crate::proofs::callers::Lengths::values_few, crate::proofs::callers::Lengths::slots_few, crate::proofs::callers::Lengths::cells_few))]
fn push_patch(out: &mut Vec<u8>, patch: &BodyPatch) -> Result<(), AllocError>
    requires form { IsTrue (is_recordable patch.now) }
    requires small { length (spelling.patch patch.now) ≤ 67108864 }
    ensures value { OnOk result (out.new.items ≡ out.old.items ++ spelling.patch patch.now) }
    ensures is { OnOk result (IsPatch patch.now) }
{
    match patch {
        BodyPatch::Values(values) => {
            out.push(VALUES_PATCH)?;
            out.extend_from_slice(&values.next().to_be_bytes())?;
            out.extend_from_slice(&(values.entries().len() as u32).to_be_bytes())?;
            push_values(out, values.entries())?;
        }
        BodyPatch::Slots(slots) => {
            out.push(SLOTS_PATCH)?;
            out.extend_from_slice(&(slots.len() as u32).to_be_bytes())?;
            push_shorts(out, slots.as_slice())?;
        }
        BodyPatch::Cells(changes) => {
            out.extend_from_slice(&[CELLS_PATCH, key_slots(changes.as_slice())])?;
            out.extend_from_slice(&(changes.len() as u32).to_be_bytes())?;
            push_keyed_cells(out, changes.as_slice())?;
        }
    }
    Ok(())
}

/// Adds a change, whose bytes are no more than a record has.
fn push_change(out: &mut Vec<u8>, change: &Change) -> Result<(), AllocError>
    requires form { IsTrue (is_recordable change.now.patch) }
    requires small { length (spelling.change change.now) ≤ 67108864 }
    ensures value { OnOk result (out.new.items ≡ out.old.items ++ spelling.change change.now) }
    ensures is { OnOk result (IsChange change.now) }
{
    out.extend_from_slice(&change.object.to_be_bytes())?;
    push_patch(out, &change.patch)
}

/// Adds changes, whose bytes are no more than a record has.
pub fn push_changes(out: &mut Vec<u8>, changes: &[Change]) -> Result<(), AllocError>
    requires form { IsTrue (list_all (λ c. is_recordable c.patch) changes.now) }
    requires small { length (flat_map spelling.change changes.now) ≤ 67108864 }
    ensures value { OnOk result (out.new.items ≡ out.old.items ++ flat_map spelling.change changes.now) }
    ensures are { OnOk result (All IsChange changes.now) }
{
    for change in changes {
        push_change(out, change)?;
    }
    Ok(())
}
