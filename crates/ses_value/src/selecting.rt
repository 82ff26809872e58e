ghost use Rattle.std.specs.Prelude.{◌≡◌, ◌≤◌, ◌==◌, length, map, find, IfOk};
ghost use Rattle.std.specs.Option.{option_copied};
ghost use Rattle.ses_value.specs.Evaluating as spec;
ghost use Rattle.ses_value.specs.Seeing.{status_in};

use crate::reader::Reader;
use crate::target::AssignedTo;
use aw_lists::List;
use aw_status::Status;
use dml_exec::Fix;
use dml_loop::{DimensionList, Slots};
use mv_view::View;
use std::alloc::{AllocError, Global};
use std::marker::Model;

/// The slots of a dimension over which a statement goes, in their order.
#[derive(Drop)]
pub struct Selection {
    dimension: u16,
    slots: List<u16>,
}

impl Model for Selection {
    ghost use Rattle.std.specs.Prelude.{List, ℕ};

    ghost Value = { ℕ × List ℕ };

    ghost view = { λ selection. (selection.dimension, selection.slots) };
}

impl Selection {
    fn list(&self) -> DimensionList<'_>
        ensures { result ≡ self.now }
    {
        DimensionList {
            dimension: self.dimension,
            slots: self.slots.as_slice(),
        }
    }
}

/// The status of a dimension: all its values, and none where the session sees no such dimension.
fn status(alloc: Global, view: &View, dimension: u16) -> Result<List<u16>, AllocError>
    ensures { IfOk result (λ slots. slots ≡ status_in view.now dimension) }
{
    match view.values(dimension) {
        Some(values) => {
            let status = Status::all(alloc, values)?;
            List::from_slice(alloc, status.slots())
        }
        None => Ok(List::new(alloc)),
    }
}

/// The first value that is fixed in a dimension.
fn fixed(fixes: &[Fix], dimension: u16) -> Option<&Fix>
    ensures { option_copied result ≡ find (λ fix. fix.dimension == dimension) fixes.now }
{
    fixes.iter().find(|fix| fix.dimension == dimension)
}

/// The slot of a fixed value that was looked up before.
fn slot_fixed(view: &View, fix: &Fix) -> u16
    ensures { result ≡ spec.slot_fixed view.now fix.now }
{
    let reader = Reader { view };
    reader.slot(fix.dimension, &fix.value).unwrap_or(0)
}

fn slots_for(
    alloc: Global,
    view: &View,
    fix: Option<&Fix>,
    dimension: u16,
) -> Result<List<u16>, AllocError>
    ensures { IfOk result (λ slots. slots ≡ spec.slots_for view.now (option_copied fix.entry) dimension) }
{
    match fix {
        Some(fix) => List::from_slice(alloc, &[slot_fixed(view, fix)]),
        None => status(alloc, view, dimension),
    }
}

/// A dimension of what is assigned to, with the value that is fixed in it or else its status.
fn target_selection(
    alloc: Global,
    view: &View,
    fixes: &[Fix],
    dimension: u16,
) -> Result<Selection, AllocError>
    ensures { IfOk result (λ selection. selection ≡ spec.list_for view.now fixes.now dimension) }
{
    let slots = slots_for(alloc, view, fixed(fixes, dimension), dimension)?;
    Ok(Selection { dimension, slots })
}

/// These dimensions, each with its status.
pub fn statuses(
    alloc: Global,
    view: &View,
    dimensions: &[u16],
) -> Result<List<Selection>, AllocError>
    ensures { IfOk result (λ selections. selections ≡ spec.lists_in view.now dimensions.now) }
{
    let mut selections = List::from_vec(Vec::with_capacity(alloc, dimensions.len())?);
    for dimension in dimensions {
        let slots = status(alloc, view, *dimension)?;
        selections.push(Selection {
            dimension: *dimension,
            slots,
        })?;
    }
    Ok(selections)
}

/// The dimensions of what is assigned to, each with the slots over which the assignment goes.
pub fn target_selections(
    alloc: Global,
    view: &View,
    to: &AssignedTo,
) -> Result<List<Selection>, AllocError>
    ensures lists { IfOk result (λ selections. selections ≡ spec.target_lists view.now to.now) }
    ensures few { IfOk result (λ selections. length selections ≤ 6) }
{
    let dimensions = to.dimensions.slots();
    let mut selections = List::from_vec(Vec::with_capacity(alloc, dimensions.len())?);
    for dimension in dimensions {
        let selection = target_selection(alloc, view, to.fixes.as_slice(), *dimension)?;
        selections.push(selection)?;
    }
    Ok(selections)
}

/// The selections as lists of a loop.
pub fn lists(alloc: Global, selections: &[Selection]) -> Result<Vec<DimensionList<'_>>, AllocError>
    ensures { IfOk result (λ lists. lists.items ≡ selections.now) }
{
    selections.iter().map(Selection::list).collect(alloc)
}
