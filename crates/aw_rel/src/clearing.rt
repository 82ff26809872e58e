//! Which values stand on no loop: a value is cleared once all of its children are, and what is left stands
//! on loops.

ghost use Rattle.std.specs.Prelude.{ℕ, ◌≡◌, ◌<◌, [], true, false, length, replicate, slice_get, None, Some, not, IfOk, OnOk};
ghost use Rattle.std.specs.List.{find};
ghost use Rattle.aw_rel.specs.Hierarchy.{is_among};
ghost use Rattle.aw_rel.specs.inside.Tables.{AreKin};
ghost use Rattle.aw_rel.specs.inside.Clearing.{IsFront, IsSettled, IsClearing, IsClimbing, is_cleared};

use aw_lists::List;
use std::alloc::{AllocError, Global};

/// Which slots' values are cleared, and these values, each behind its children.
#[derive(Drop)]
pub struct Clearing {
    pub cleared: Vec<bool>,
    /// How many of its first children are known to be cleared.
    passed: Vec<usize>,
    pub upward: Vec<u16>,
}

/// How many of the first children are cleared, where so many are.
fn front(children: &[u16], cleared: &[bool], passed: usize) -> usize
    requires below { (place : ℕ) → (child : ℕ) → slice_get children.now place ≡ Some child → child < length cleared.now }
    requires passed { IsFront children.now cleared.now passed }
    ensures front { IsFront children.now cleared.now result }
    ensures next { (child : ℕ) → slice_get children.now result ≡ Some child → is_cleared cleared.now child ≡ false }
{
    let mut front = passed;
    while front < children.len() && cleared[usize::from(children[front])] {
        front += 1;
    }
    front
}

impl Clearing {
    /// Nothing is cleared yet.
    fn new(alloc: Global, room: usize) -> Result<Clearing, AllocError>
        ensures { IfOk result (λ clearing. (clearing.cleared.items ≡ replicate room false) × (clearing.passed.items ≡ replicate room 0) × (clearing.upward.items ≡ [])) }
    {
        Ok(Clearing {
            cleared: vec![in alloc; false; room]?,
            passed: vec![in alloc; 0; room]?,
            upward: Vec::new(alloc),
        })
    }

    /// Clears a value where all of its children are cleared, then its parent likewise, and so on.
    fn climb(
        &mut self,
        from: u16,
        parents: &[Option<u16>],
        children: &[List<u16>],
    ) -> Result<(), AllocError>
        requires kin { AreKin parents.now children.now }
        requires clearing { IsClearing parents.now children.now self.old.cleared.items self.old.passed.items self.old.upward.items }
        requires from { from < length parents.now }
        ensures { OnOk result (IsClimbing parents.now children.now self.old.cleared.items self.new.cleared.items self.new.passed.items self.new.upward.items from None) }
    {
        let mut next = Some(from);
        'steps: while let Some(slot) = next {
            let at = usize::from(slot);
            if self.cleared[at] {
                return Ok(());
            }
            let below = children[at].as_slice();
            let passed = front(below, self.cleared.as_slice(), self.passed[at]);
            self.passed[at] = passed;
            if passed < below.len() {
                return Ok(());
            }
            self.upward.push(slot)?;
            self.cleared[at] = true;
            next = parents[at];
        }
        Ok(())
    }
}

/// Clears all values that stand on no loop.
pub fn cleared(
    alloc: Global,
    slots: &[u16],
    parents: &[Option<u16>],
    children: &[List<u16>],
) -> Result<Clearing, AllocError>
    requires kin { AreKin parents.now children.now }
    requires below { (slot : ℕ) → is_among slots.now slot ≡ true → slot < length parents.now }
    ensures clearing { IfOk result (λ clearing. IsClearing parents.now children.now clearing.cleared.items clearing.passed.items clearing.upward.items) }
    ensures settled { IfOk result (λ clearing. (slot : ℕ) → is_among slots.now slot ≡ true → IsSettled parents.now clearing.cleared.items slot) }
{
    let mut clearing = Clearing::new(alloc, parents.len())?;
    for slot in slots {
        clearing.climb(*slot, parents, children)?;
    }
    Ok(clearing)
}

/// The first value that isn't cleared.
pub fn first_uncleared(slots: &[u16], cleared: &[bool]) -> Option<u16>
    requires { (slot : ℕ) → is_among slots.now slot ≡ true → slot < length cleared.now }
    ensures { result ≡ find (λ slot. not (is_cleared cleared.now slot)) slots.now }
{
    for slot in slots {
        if !cleared[usize::from(*slot)] {
            return Some(*slot);
        }
    }
    None
}
