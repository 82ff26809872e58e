ghost use Rattle.std.specs.Prelude.{◌≡◌, ℕ, List, Option};
ghost use Rattle.dml_loop.specs.Fixes.{slot_or, slot_of_fix, slots_of_fixes, Answers};

use crate::fault::LoopFault;
use aw_cell::Text;
use aw_lists::List as Slotted;
use dml_exec::Fix;
use std::alloc::Global;

/// Finds values of dimensions by their names.
pub trait Slots {
    /// The slot of a value in a dimension, or that there is none.
    ghost slot_of: { Self → ℕ → List ℕ → Option ℕ };

    /// The slot of the value of this name in a dimension, and `None` exactly where it has no such value.
    fn slot(&self, dimension: u16, value: &Text) -> Option<u16>
        ensures { result ≡ slot_of self.now dimension value.now };
}

/// The slot of a value, or that there is no such value.
pub fn slot_or<S: Slots>(slots: &S, dimension: u16, value: &Text) -> Result<u16, LoopFault>
    ensures { result ≡ slot_or value.now (S.slot_of slots.now dimension value.now) }
{
    slots
        .slot(dimension, value)
        .ok_or(LoopFault::NoValue(*value))
}

/// The slots of the values that code fixes, in order, before it is run. The first value that its
/// dimension lacks is refused with its name.
pub fn fixed_slots<S: Slots>(
    alloc: Global,
    slots: &S,
    fixes: &[Fix],
) -> Result<Slotted<u16>, LoopFault>
    ensures { Answers (slots_of_fixes (S.slot_of slots.now) fixes.now) result }
{
    let mut fixed = Slotted::from_vec(Vec::with_capacity(alloc, fixes.len())?);
    for fix in fixes {
        let slot = slot_or(slots, fix.dimension, &fix.value)?;
        fixed.push(slot)?;
    }
    Ok(fixed)
}
