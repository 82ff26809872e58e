//! Marks by slot, so that a list is gone through once.
ghost use Rattle.std.specs.Prelude.{◌≡◌, ◌<◌, ◌∷◌, [], true, length, slice_set, IfOk, OnOk};
ghost use Rattle.std.specs.List.{filter};
ghost use Rattle.std.specs.Bool.{beq};
ghost use Rattle.aw_status.specs.Rules.{joined};
ghost use Rattle.aw_status.specs.inside.Marks.{AreMarks, IsBelow, is_marked};

use std::alloc::{AllocError, Global};

/// The marks of these slots.
#[tactic(auto, using(crate::proofs::Below::below_at, crate::proofs::Choosing::marks_step))]
pub fn marks_of(alloc: Global, room: usize, slots: &[u16]) -> Result<Vec<bool>, AllocError>
    requires below { IsBelow room slots.now }
    ensures { IfOk result (λ marks. AreMarks room slots.now marks.items) }
{
    let mut marks = vec![in alloc; false; room]?;
    for slot in slots {
        marks[usize::from(*slot)] = true;
    }
    Ok(marks)
}

/// The slots that are marked, or those that aren't, in their order.
#[tactic(auto, using(crate::proofs::Below::below_at))]
pub fn chosen(
    alloc: Global,
    slots: &[u16],
    marks: &[bool],
    wanted: bool,
) -> Result<Vec<u16>, AllocError>
    requires below { IsBelow (length marks.now) slots.now }
    ensures { IfOk result (λ chosen. chosen.items ≡ filter (λ slot. beq (is_marked marks.now slot) wanted) slots.now) }
{
    let mut chosen = Vec::new(alloc);
    for slot in slots {
        if marks[usize::from(*slot)] == wanted {
            chosen.push(*slot)?;
        }
    }
    Ok(chosen)
}

fn is_marked(marks: &[bool], slot: u16) -> bool
    requires { slot < length marks.now }
    ensures { result ≡ is_marked marks.now slot }
{
    marks[usize::from(slot)]
}

fn mark(marks: &mut Vec<bool>, slot: u16)
    requires { slot < length marks.old.items }
    ensures { marks.new.items ≡ slice_set marks.old.items slot true }
{
    marks[usize::from(slot)] = true;
}

/// Adds a slot where it isn't there yet.
#[tactic(auto, using(crate::proofs::Choosing::one_there, crate::proofs::Choosing::one_new, crate::proofs::Choosing::marks_more))]
fn join_one(selected: &mut Vec<u16>, marks: &mut Vec<bool>, slot: u16) -> Result<(), AllocError>
    requires marks { AreMarks (length marks.old.items) selected.old.items marks.old.items }
    requires within { slot < length marks.old.items }
    ensures joined { OnOk result (selected.new.items ≡ joined selected.old.items (slot ∷ [])) }
    ensures marks { OnOk result (AreMarks (length marks.old.items) selected.new.items marks.new.items) }
    ensures room { OnOk result (length marks.new.items ≡ length marks.old.items) }
{
    if is_marked(marks.as_slice(), slot) {
        return Ok(());
    }
    selected.push(slot)?;
    mark(marks, slot);
    Ok(())
}

/// Adds each slot that isn't there yet.
#[tactic(auto, using(crate::proofs::Below::below_at))]
pub fn join(selected: &mut Vec<u16>, marks: &mut Vec<bool>, slots: &[u16]) -> Result<(), AllocError>
    requires marks { AreMarks (length marks.old.items) selected.old.items marks.old.items }
    requires below { IsBelow (length marks.old.items) slots.now }
    ensures { OnOk result (selected.new.items ≡ joined selected.old.items slots.now) }
{
    for slot in slots {
        join_one(selected, marks, *slot)?;
    }
    Ok(())
}
