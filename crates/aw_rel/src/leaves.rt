//! Leaves among the values that are marked.

ghost use Rattle.std.specs.Prelude.{ℕ, ◌≡◌, ◌<◌, ◌&&◌, true, length, IfOk, IfSome};
ghost use Rattle.std.specs.List.{filter};
ghost use Rattle.aw_rel.specs.Hierarchy.{is_among};
ghost use Rattle.aw_rel.specs.inside.Tables.{children_at, has_none};
ghost use Rattle.aw_rel.specs.inside.Clearing.{is_cleared, is_marked};

use aw_lists::List;
use std::alloc::{AllocError, Global};

/// Whether there is a parent, and it is marked.
pub fn is_marked(marks: &[bool], parent: Option<u16>) -> bool
    requires { IfSome parent (λ slot. slot < length marks.now) }
    ensures { result ≡ is_marked marks.now parent }
{
    match parent {
        Some(slot) => marks[usize::from(slot)],
        None => false,
    }
}

/// Whether the value with a slot is marked and has no children.
fn is_leaf(children: &[List<u16>], marks: &[bool], slot: u16) -> bool
    requires children { slot < length children.now }
    requires marks { slot < length marks.now }
    ensures { result ≡ (has_none (children_at children.now slot) && is_cleared marks.now slot) }
{
    let at = usize::from(slot);
    children[at].is_empty() & marks[at]
}

/// The values that are marked and have no children.
pub fn leaves_among(
    alloc: Global,
    slots: &[u16],
    children: &[List<u16>],
    marks: &[bool],
) -> Result<List<u16>, AllocError>
    requires children { (slot : ℕ) → is_among slots.now slot ≡ true → slot < length children.now }
    requires marks { (slot : ℕ) → is_among slots.now slot ≡ true → slot < length marks.now }
    ensures { IfOk result (λ leaves. leaves ≡ filter (λ slot. has_none (children_at children.now slot) && is_cleared marks.now slot) slots.now) }
{
    let mut leaves = List::new(alloc);
    for slot in slots {
        if is_leaf(children, marks, *slot) {
            leaves.push(*slot)?;
        }
    }
    Ok(leaves)
}
