//! What the calls make of the places of a view. Each place is a kept object, or nothing.

ghost use Rattle.std.specs.Prelude.{◌≡◌, ◌<◌, ◌≤◌, map, IfSome, OnOk, OnErr};
ghost use Rattle.std.specs.Option.{option_copied, option_map, IsSomeAnd};
ghost use Rattle.aw_body.specs.Bodies.{IsBody, IsBodyOf};
ghost use Rattle.aw_body.specs.BodyPatches.{applied};
ghost use Rattle.aw_body.specs.declared.body.Body.TheVariants.{Dim};
ghost use Rattle.aw_body.specs.declared.patch.BodyPatch.TheVariants.{Cells as CellPatch};
ghost use Rattle.aw_body.specs.Laws.{DifferenceGivesNewer};
ghost use Rattle.mv_view.specs.Each.{object_in, each_from, only, listed};
ghost use Rattle.mv_view.specs.ViewState.{AreSeen, AreCellsOf, HaveForms, kind_of};
ghost use Rattle.mv_view.specs.Rules as rule;
ghost use Rattle.mv_view.specs.inside.Steps.{stepped};

use crate::fault::ViewFault;
use crate::kept::{Kept, Step, look_at};
use aw_body::Fresh;
use aw_cell::Cell;
use aw_dim::Dimension;
use aw_lists::{Coord, List};

/// An object that is kept, by its number.
pub fn kept_in(objects: &List<Option<Kept>>, object: u16) -> Option<&Kept>
    ensures { option_copied result ≡ object_in objects.now object }
{
    match objects.get(usize::from(object)) {
        Some(Some(kept)) => Some(kept),
        _ => None,
    }
}

/// One step of one object.
pub fn step_at(objects: &mut List<Option<Kept>>, object: u16, step: Step)
    requires { AreSeen objects.old }
    ensures { objects.new ≡ each_from 0 (only object (stepped step)) objects.old }
{
    let at = usize::from(object);
    if at < objects.len() {
        if let Some(kept) = objects.at_mut(at) {
            kept.step(step);
        }
    }
}

/// One step of each object that a list names.
pub fn step_all(objects: &mut List<Option<Kept>>, list: &[u16], step: Step)
    requires law { DifferenceGivesNewer }
    requires seen { AreSeen objects.old }
    ensures { objects.new ≡ each_from 0 (listed list.now (stepped step)) objects.old }
{
    for object in list {
        step_at(objects, *object, step);
    }
}

/// One object gets a generation.
fn renew_at(objects: &mut List<Option<Kept>>, fresh: Fresh)
    ensures objects { objects.new ≡ each_from 0 (only fresh.object (rule.with_latest fresh)) objects.old }
    ensures valid { IsBody fresh.body }
{
    look_at(&fresh.body);
    let Fresh {
        object,
        number,
        body,
    } = fresh;
    let at = usize::from(object);
    if at < objects.len() {
        if let Some(kept) = objects.at_mut(at) {
            kept.renew(number, body);
        }
    }
}

/// Each object of which a generation is handed over gets it.
pub fn renew_all(objects: &mut List<Option<Kept>>, fresh: List<Fresh>)
    requires seen { AreSeen objects.old }
    requires forms { HaveForms (map (option_map kind_of) objects.old) fresh }
    ensures objects { objects.new ≡ each_from 0 (λ at found. rule.renewed (rule.latest_of fresh at) found) objects.old }
    ensures seen { AreSeen objects.new }
{
    let mut rest = fresh.into_vec();
    while let Some(latest) = rest.pop() {
        renew_at(objects, latest);
    }
}

/// The slots of one valueset.
pub fn select_at(objects: &mut List<Option<Kept>>, object: u16, slots: List<u16>)
    ensures { objects.new ≡ each_from 0 (only object (rule.with_slots slots)) objects.old }
{
    let at = usize::from(object);
    if at < objects.len() {
        if let Some(kept) = objects.at_mut(at) {
            kept.select(slots);
        }
    }
}

/// The values of one dimension.
pub fn maintain_at(objects: &mut List<Option<Kept>>, object: u16, values: Dimension)
    requires seen { AreSeen objects.old }
    requires form { IsSomeAnd (object_in objects.old object) (λ found. IsBodyOf found.kind (Dim values)) }
    ensures objects { objects.new ≡ each_from 0 (only object (rule.with_values values)) objects.old }
    ensures valid { IsBody (Dim values) }
{
    let _ = values.next();
    let at = usize::from(object);
    if at < objects.len() {
        if let Some(kept) = objects.at_mut(at) {
            kept.maintain(values);
        }
    }
}

/// The cells of one object. After an error all is as it was.
pub fn write_at(
    objects: &mut List<Option<Kept>>,
    object: u16,
    cells: &[(Coord, Cell)],
) -> Result<(), ViewFault>
    requires seen { AreSeen objects.old }
    requires cells { IsSomeAnd (object_in objects.old object) (λ found. AreCellsOf found.kind cells.now) }
    ensures ok { OnOk result (objects.new ≡ each_from 0 (only object (rule.with_cells cells.now)) objects.old) }
    ensures full { result ≡ Err ViewFault.Full → IfSome (object_in objects.old object) (λ found. 65536 < rule.pages_of (applied found.private (CellPatch cells.now))) }
    ensures room { OnOk result (IfSome (object_in objects.old object) (λ found. rule.pages_of (applied found.private (CellPatch cells.now)) ≤ 65536)) }
    ensures err { OnErr result (objects.new ≡ objects.old) }
    ensures valid { OnOk result (IfSome (object_in objects.old object) (λ found. IsBody (applied found.private (CellPatch cells.now)))) }
{
    let at = usize::from(object);
    if at < objects.len() {
        if let Some(kept) = objects.at_mut(at) {
            return kept.write(cells);
        }
    }
    Ok(())
}
