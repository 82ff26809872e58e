ghost use Rattle.std.specs.Prelude.{◌≡◌, ◌∷◌, [], IfOk};
ghost use Rattle.aw_cell.specs.declared.cell.Kind.TheVariants.{Int as Integer};
ghost use Rattle.aw_body.specs.Bodies.{AreAlike};
ghost use Rattle.aw_body.specs.BodyPatches.{AreOfOneForm, CanTake};

use aw_body::{
    Body, BodyPatch, apply, compose, composed_does_both, difference, difference_gives_newer, fits,
};
use aw_cell::{Cell, Kind, Text};
use aw_dim::Dimension;
use aw_lists::{Coord, List};
use aw_schema::{Def, DefKind};
use aw_var::{Patch, Variable};
use std::alloc::{AllocError, Global};

fn key(slot: u16) -> Coord
    ensures { result ≡ slot ∷ [] }
{
    Coord::of(&[slot]).unwrap()
}

// Two cells of an INTEGER variable over one dimension.
fn integers(alloc: Global, one: (u16, i32), other: (u16, i32)) -> Result<Variable, AllocError>
    ensures slots { IfOk result (λ variable. variable.slots ≡ 1) }
    ensures kind { IfOk result (λ variable. variable.kind ≡ Integer) }
{
    let mut variable = Variable::new(alloc, 1, Kind::Int);
    variable.put(&key(one.0), Cell::Int(one.1))?;
    variable.put(&key(other.0), Cell::Int(other.1))?;
    Ok(variable)
}

fn two_changes(alloc: Global, one: (u16, Cell), other: (u16, Cell)) -> Result<Patch, AllocError>
    ensures { IfOk result (λ patch. patch ≡ (one.0 ∷ [], one.1) ∷ (other.0 ∷ [], other.1) ∷ []) }
{
    let mut patch = List::new(alloc);
    patch.push((key(one.0), one.1))?;
    patch.push((key(other.0), other.1))?;
    Ok(patch)
}

fn has_changes(patch: &Option<BodyPatch>, expected: &Patch) -> bool {
    match patch {
        Some(BodyPatch::Cells(changes)) => changes == expected,
        _ => false,
    }
}

fn so(found: Result<bool, AllocError>) -> bool {
    match found {
        Ok(is_so) => is_so,
        Err(_) => false,
    }
}

fn differ_by(
    alloc: Global,
    older: &Body,
    newer: &Body,
    expected: &Patch,
) -> Result<bool, AllocError>
    requires { AreAlike older.now newer.now }
{
    let patch = difference(alloc, older, newer)?;
    Ok(has_changes(&patch, expected))
}

// Cells that are set, changed and taken away.
fn cells_differ(alloc: Global) -> Result<bool, AllocError> {
    let expected = two_changes(alloc, (2, Cell::Na), (3, Cell::Int(9)))?;
    let older = integers(alloc, (1, 5), (2, 7))?;
    let newer = integers(alloc, (1, 5), (3, 9))?;
    differ_by(alloc, &Body::Var(older), &Body::Var(newer), &expected)
}

fn are_same(alloc: Global, one: &Body, other: &Body) -> Result<bool, AllocError>
    requires { AreAlike one.now other.now }
{
    Ok(difference(alloc, one, other)?.is_none())
}

// The order in which cells were put makes no difference.
fn cells_are_same(alloc: Global) -> Result<bool, AllocError> {
    let one = integers(alloc, (1, 5), (3, 9))?;
    let other = integers(alloc, (3, 9), (1, 5))?;
    are_same(alloc, &Body::Var(one), &Body::Var(other))
}

fn is_left_empty(alloc: Global, body: &Body, patch: &BodyPatch) -> Result<bool, AllocError>
    requires { CanTake body.now patch.now }
{
    match apply(alloc, body, patch)? {
        Body::Var(cells) => Ok(cells.is_empty()),
        _ => Ok(false),
    }
}

// A variable of which all cells are taken away.
fn cells_go(alloc: Global) -> Result<bool, AllocError> {
    let older = integers(alloc, (1, 5), (2, 7))?;
    let patch = two_changes(alloc, (1, Cell::Na), (2, Cell::Na))?;
    is_left_empty(alloc, &Body::Var(older), &BodyPatch::Cells(patch))
}

fn composes_to(
    alloc: Global,
    first: &BodyPatch,
    second: &BodyPatch,
    expected: &Patch,
) -> Result<bool, AllocError>
    requires { AreOfOneForm first.now second.now }
{
    let both = compose(alloc, first, second)?;
    Ok(has_changes(&Some(both), expected))
}

fn three_changes(
    alloc: Global,
    one: (u16, Cell),
    other: (u16, Cell),
    last: (u16, Cell),
) -> Result<Patch, AllocError> {
    let mut patch = two_changes(alloc, one, other)?;
    patch.push((key(last.0), last.1))?;
    Ok(patch)
}

fn later_changes_decide(alloc: Global) -> Result<bool, AllocError> {
    let first = two_changes(alloc, (2, Cell::Na), (3, Cell::Int(9)))?;
    let second = two_changes(alloc, (3, Cell::Na), (4, Cell::Int(1)))?;
    let expected = three_changes(alloc, (2, Cell::Na), (3, Cell::Na), (4, Cell::Int(1)))?;
    composes_to(
        alloc,
        &BodyPatch::Cells(first),
        &BodyPatch::Cells(second),
        &expected,
    )
}

fn makes_slots(
    alloc: Global,
    body: &Body,
    patch: &BodyPatch,
    expected: &[u16],
) -> Result<bool, AllocError>
    requires { CanTake body.now patch.now }
{
    match apply(alloc, body, patch)? {
        Body::Set(slots) => Ok(slots.as_slice() == expected),
        _ => Ok(false),
    }
}

// Whether what differs between two valuesets makes these slots of the older one.
fn difference_makes(
    alloc: Global,
    older: List<u16>,
    newer: List<u16>,
    expected: &[u16],
) -> Result<bool, AllocError> {
    let (older, newer) = (Body::Set(older), Body::Set(newer));
    match difference(alloc, &older, &newer)? {
        Some(patch) => makes_slots(alloc, &older, &patch, expected),
        None => Ok(false),
    }
}

fn slots_change(alloc: Global) -> Result<bool, AllocError> {
    let older = List::from_slice(alloc, &[3, 1])?;
    let newer = List::from_slice(alloc, &[1, 3])?;
    difference_makes(alloc, older, newer, &[1, 3])
}

fn fits_object(patch: &BodyPatch, kind: DefKind, latest: &Body) -> bool {
    match Text::of(b"x") {
        Some(name) => fits(patch, &Def { name, kind }, latest),
        None => false,
    }
}

fn slots_fit(alloc: Global, slots: &[u16]) -> Result<bool, AllocError> {
    let patch = BodyPatch::Slots(List::from_slice(alloc, slots)?);
    let latest = Body::Set(List::new(alloc));
    Ok(fits_object(&patch, DefKind::Valueset { dimension: 0 }, &latest))
}

fn cells_fit(alloc: Global, one: (u16, Cell), other: (u16, Cell)) -> Result<bool, AllocError> {
    let patch = BodyPatch::Cells(two_changes(alloc, one, other)?);
    let latest = Body::Var(Variable::new(alloc, 1, Kind::Int));
    let (kind, dimensions) = (Kind::Int, key(0));
    Ok(fits_object(&patch, DefKind::Variable { kind, dimensions }, &latest))
}

fn values_fit(newer: Dimension, latest: Dimension) -> bool {
    let (patch, latest) = (BodyPatch::Values(newer), Body::Dim(latest));
    fits_object(&patch, DefKind::Dimension, &latest)
}

// Adds a value, and says whether it got slot 0.
fn gets_a_value(values: &mut Dimension) -> bool {
    match Text::of(b"North") {
        Some(name) if !name.bytes().is_empty() => values.add(name, 0) == Ok(0),
        _ => false,
    }
}

fn is_kept(alloc: Global, kind: DefKind) -> bool {
    match Text::of(b"x") {
        Some(name) => Body::empty(alloc, &Def { name, kind }).is_some(),
        None => false,
    }
}

#[test]
fn bodies_change_by_patches(rt: HostRuntime) {
    let alloc = rt.alloc();
    let differences = so(cells_differ(alloc)) & so(cells_are_same(alloc));
    let changes = so(cells_go(alloc)) & so(slots_change(alloc)) & so(later_changes_decide(alloc));
    difference_gives_newer();
    composed_does_both();
    assert!(rt; differences & changes);
}

fn keys_and_cells_fit(alloc: Global) -> bool {
    so(cells_fit(alloc, (1, Cell::Na), (2, Cell::Int(-2_147_483_647))))
        & !so(cells_fit(alloc, (2, Cell::Na), (1, Cell::Na)))
        & !so(cells_fit(alloc, (1, Cell::Na), (2, Cell::Int(i32::MIN))))
        & !so(cells_fit(alloc, (1, Cell::Na), (2, Cell::Bool(true))))
}

#[test]
fn what_records_hold_fits(rt: HostRuntime) {
    let alloc = rt.alloc();
    let slots = so(slots_fit(alloc, &[65_535, 0])) & !so(slots_fit(alloc, &[7, 1, 7]));
    assert!(rt; slots & keys_and_cells_fit(alloc));
}

fn the_next_slot_rises(alloc: Global) -> bool {
    let (none, mut one) = (Dimension::new(alloc), Dimension::new(alloc));
    gets_a_value(&mut one) & values_fit(one, none)
}

fn the_next_slot_falls(alloc: Global) -> bool {
    let (none, mut one) = (Dimension::new(alloc), Dimension::new(alloc));
    gets_a_value(&mut one) & values_fit(none, one)
}

#[test]
fn the_next_slot_never_falls(rt: HostRuntime) {
    let alloc = rt.alloc();
    let rises = the_next_slot_rises(alloc) & !the_next_slot_falls(alloc);
    assert!(rt; rises & is_kept(alloc, DefKind::Dimension));
}
