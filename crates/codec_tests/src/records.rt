ghost use Rattle.std.specs.Prelude.{IsTrue, IfOk, ◌≤◌, ◌<◌, length};
ghost use Rattle.aw_schema.specs.Definitions.{has_form};

use aw_body::{Body, BodyPatch, Change, fits};
use aw_cell::{Cell, Kind, Number, Text, is_name};
use aw_codec::{
    Decoded, decode, encode_catalogue, encode_commit, spellings_differ, wholes_are_records,
};
use aw_dim::Dimension;
use aw_lists::{Coord, List};
use aw_schema::{Catalogue, Def, DefKind};
use std::alloc::{AllocError, Global};

// Eight definitions: the dimensions `d` and `e`, `r` from `d` to `e`, `s` of `d`, `v NUMBER <d e>`,
// `f` of `v*2`, `p` of `RETURN`, and `m` of `RELATION r OPERATOR SUM`.
const EIGHT: &[u8] =
    b"D\x01\0\x08\x01d\0\x01e\0\x01r\x01\0\x01\0\0\x01s\x02\0\0\x01v\x03\x01\x02\0\0\0\x01\x01f\x04\0\0\0\x03v*2\x01p\x05\0\0\0\x06RETURN\x01m\x06\0\0\0\x17RELATION r OPERATOR SUM";

// Accepts a definition, and tells whether it got this number.
fn defines(catalogue: &mut Catalogue, object: u16, name: &[u8], kind: DefKind) -> bool
    requires { IsTrue (has_form kind) }
{
    if !is_name(name) {
        return false;
    }
    match Text::of(name) {
        Some(name) => catalogue.check(Def { name, kind }) == Ok(object),
        None => false,
    }
}

fn key(slots: &[u16]) -> Coord
    requires { length slots.now ≤ 6 }
{
    Coord::of(slots).unwrap()
}

fn numbers(dimensions: &[u16]) -> DefKind
    requires { length dimensions.now ≤ 6 }
    ensures { IsTrue (has_form result) }
{
    DefKind::Variable {
        kind: Kind::Num,
        dimensions: Coord::of(dimensions).unwrap(),
    }
}

fn kept_kinds(catalogue: &mut Catalogue) -> bool {
    let (relation, valueset) = (
        DefKind::Relation { target: 1, base: 0 },
        DefKind::Valueset { dimension: 0 },
    );
    defines(catalogue, 0, b"d", DefKind::Dimension)
        & defines(catalogue, 1, b"e", DefKind::Dimension)
        & defines(catalogue, 2, b"r", relation)
        & defines(catalogue, 3, b"s", valueset)
        & defines(catalogue, 4, b"v", numbers(&[0, 1]))
}

fn formula(alloc: Global, text: &[u8]) -> Result<DefKind, AllocError>
    requires { length text.now < 4294967296 }
    ensures { IfOk result (λ kind. IsTrue (has_form kind)) }
{
    let text = List::from_slice(alloc, text)?;
    Ok(DefKind::Formula { text })
}

fn program(alloc: Global, text: &[u8]) -> Result<DefKind, AllocError>
    requires { length text.now < 4294967296 }
    ensures { IfOk result (λ kind. IsTrue (has_form kind)) }
{
    let text = List::from_slice(alloc, text)?;
    Ok(DefKind::Program { text })
}

fn aggmap(alloc: Global, text: &[u8]) -> Result<DefKind, AllocError>
    requires { length text.now < 4294967296 }
    ensures { IfOk result (λ kind. IsTrue (has_form kind)) }
{
    let text = List::from_slice(alloc, text)?;
    Ok(DefKind::Aggmap { text })
}

fn texted_kinds(alloc: Global, catalogue: &mut Catalogue) -> Result<bool, AllocError> {
    let formula = formula(alloc, b"v*2")?;
    let program = program(alloc, b"RETURN")?;
    let aggmap = aggmap(alloc, b"RELATION r OPERATOR SUM")?;
    Ok(
        defines(catalogue, 5, b"f", formula)
            & defines(catalogue, 6, b"p", program)
            & defines(catalogue, 7, b"m", aggmap),
    )
}

fn spells(alloc: Global, catalogue: &Catalogue, bytes: &[u8]) -> bool {
    match encode_catalogue(alloc, catalogue) {
        Ok(spelled) => spelled.as_slice() == bytes,
        Err(_) => false,
    }
}

// Whether these bytes are read as the definitions of a catalogue.
fn reads_as(alloc: Global, bytes: &[u8], catalogue: &Catalogue) -> bool {
    match decode(alloc, bytes) {
        Ok(Decoded::Definitions(defs)) => {
            let mut all = defs.len() == catalogue.len() as usize;
            for object in 0..8u16 {
                all &= defs.get(usize::from(object)) == catalogue.def(object);
            }
            all
        }
        _ => false,
    }
}

fn so(found: Result<bool, AllocError>) -> bool {
    match found {
        Ok(is_so) => is_so,
        Err(_) => false,
    }
}

fn definitions_go_round(alloc: Global) -> bool {
    let mut catalogue = Catalogue::new(alloc);
    let defined = kept_kinds(&mut catalogue) & so(texted_kinds(alloc, &mut catalogue));
    defined & spells(alloc, &catalogue, EIGHT) & reads_as(alloc, EIGHT, &catalogue)
}

#[test]
fn definitions_of_every_kind_go_round(rt: HostRuntime) {
    spellings_differ();
    wholes_are_records();
    assert!(rt; definitions_go_round(rt.alloc()));
}

fn same_patch(one: &BodyPatch, other: &BodyPatch) -> bool {
    match (one, other) {
        (BodyPatch::Values(one), BodyPatch::Values(other)) => one == other,
        (BodyPatch::Slots(one), BodyPatch::Slots(other)) => one == other,
        (BodyPatch::Cells(one), BodyPatch::Cells(other)) => one == other,
        _ => false,
    }
}

// Whether these bytes are read as a commit of one change.
fn reads_change(alloc: Global, bytes: &[u8], change: &Change) -> bool {
    match decode(alloc, bytes) {
        Ok(Decoded::Commit(changes)) => match changes.as_slice() {
            [read] => (read.object == change.object) & same_patch(&read.patch, &change.patch),
            _ => false,
        },
        _ => false,
    }
}

// Whether the commit of a patch of an object of this kind is spelled as these bytes, and read again.
fn goes_round(
    alloc: Global,
    object: u16,
    kind: DefKind,
    patch: BodyPatch,
    bytes: &[u8],
) -> Result<bool, AllocError> {
    let Some(name) = Text::of(b"x") else {
        return Ok(false);
    };
    let def = Def { name, kind };
    let Some(latest) = Body::empty(alloc, &def) else {
        return Ok(false);
    };
    if !fits(&patch, &def, &latest) {
        return Ok(false);
    }
    let mut changes = List::new(alloc);
    changes.push(Change { object, patch })?;
    match encode_commit(alloc, &changes) {
        Ok(spelled) => Ok(
            (spelled.as_slice() == bytes)
                & match changes.as_slice() {
                    [change] => reads_change(alloc, bytes, change),
                    _ => false,
                },
        ),
        Err(_) => Ok(false),
    }
}

fn values_go_round(alloc: Global, bytes: &[u8]) -> Result<bool, AllocError> {
    let (Some(north), Some(east)) = (Text::of(b"North"), Text::of(b"East")) else {
        return Ok(false);
    };
    let entries = List::from_slice(alloc, &[(2, north), (0, east)])?;
    match Dimension::of(alloc, entries, 3)? {
        Some(values) => {
            let patch = BodyPatch::Values(values);
            goes_round(alloc, 0, DefKind::Dimension, patch, bytes)
        }
        None => Ok(false),
    }
}

fn slots_go_round(alloc: Global, bytes: &[u8]) -> Result<bool, AllocError> {
    let patch = BodyPatch::Slots(List::from_slice(alloc, &[2, 0])?);
    goes_round(alloc, 3, DefKind::Valueset { dimension: 0 }, patch, bytes)
}

fn relation_goes_round(alloc: Global, bytes: &[u8]) -> Result<bool, AllocError> {
    let changes = [(key(&[0]), Cell::Slot(1)), (key(&[2]), Cell::Na)];
    let patch = BodyPatch::Cells(List::from_slice(alloc, &changes)?);
    goes_round(
        alloc,
        2,
        DefKind::Relation { target: 1, base: 0 },
        patch,
        bytes,
    )
}

fn number(units: i64) -> Cell {
    match Number::of_units(units) {
        Some(number) => Cell::Num(number),
        None => Cell::Na,
    }
}

fn numbers_go_round(alloc: Global, bytes: &[u8]) -> Result<bool, AllocError> {
    let changes = [
        (key(&[0, 1]), number(15_000)),
        (key(&[2, 0]), Cell::Na),
        (key(&[2, 1]), number(-1)),
    ];
    let patch = BodyPatch::Cells(List::from_slice(alloc, &changes)?);
    goes_round(alloc, 4, numbers(&[0, 1]), patch, bytes)
}

#[test]
fn patches_of_every_kind_go_round(rt: HostRuntime) {
    let alloc = rt.alloc();
    let values = values_go_round(
        alloc,
        b"C\x01\0\x01\0\0L\0\0\0\x03\0\0\0\x02\0\x02\x05North\0\0\x04East",
    );
    let slots = slots_go_round(alloc, b"C\x01\0\x01\0\x03S\0\0\0\x02\0\x02\0\0");
    let relation = relation_goes_round(
        alloc,
        b"C\x01\0\x01\0\x02M\x01\0\0\0\x02\0\0\x05\0\x01\0\x02\0",
    );
    let numbers = numbers_go_round(
        alloc,
        b"C\x01\0\x01\0\x04M\x02\0\0\0\x03\0\0\0\x01\x01\0\0\0\0\0\0\x3a\x98\0\x02\0\0\0\0\x02\0\x01\x01\xff\xff\xff\xff\xff\xff\xff\xff",
    );
    assert!(rt; so(values) & so(slots) & so(relation) & so(numbers));
}

// A cell of a variable without dimensions that is object 5.
fn cell_goes_round(
    alloc: Global,
    kind: Kind,
    cell: Cell,
    bytes: &[u8],
) -> Result<bool, AllocError> {
    let dimensions = key(&[]);
    let patch = BodyPatch::Cells(List::from_slice(alloc, &[(dimensions, cell)])?);
    goes_round(
        alloc,
        5,
        DefKind::Variable { kind, dimensions },
        patch,
        bytes,
    )
}

fn text(bytes: &[u8]) -> Cell {
    match Text::of(bytes) {
        Some(text) => Cell::Text(text),
        None => Cell::Na,
    }
}

#[test]
fn cells_of_every_type_go_round(rt: HostRuntime) {
    let alloc = rt.alloc();
    let texts = cell_goes_round(
        alloc,
        Kind::Text,
        text(b"Hi"),
        b"C\x01\0\x01\0\x05M\0\0\0\0\x01\x03\x02Hi",
    );
    let truths = cell_goes_round(
        alloc,
        Kind::Bool,
        Cell::Bool(true),
        b"C\x01\0\x01\0\x05M\0\0\0\0\x01\x04\x01",
    );
    let integers = cell_goes_round(
        alloc,
        Kind::Int,
        Cell::Int(7),
        b"C\x01\0\x01\0\x05M\0\0\0\0\x01\x02\0\0\0\x07",
    );
    assert!(rt; so(texts) & so(truths) & so(integers));
}
