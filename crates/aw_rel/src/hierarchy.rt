ghost use Rattle.std.specs.Prelude.{ℕ, ◌≡◌, ◌<◌, true, length, slice_index_or, IfOk, IfErr, OnOk, None, false};
ghost use Rattle.aw_cell.specs.declared.cell.Kind.TheVariants.{Slot as SlotKind};
ghost use Rattle.aw_rel.specs.Hierarchy.{tree_of, parent_in, children_in, leaves_in, first_loop, is_among, is_within, slots_in, IsHierarchy, IsCause};

use crate::clearing::{cleared, first_uncleared};
use crate::fault::RelFault;
use crate::leaves::{is_marked, leaves_among};
use crate::tables::{children_of, parents_of, slots_of};
use aw_dim::Dimension;
use aw_lists::List;
use aw_var::Variable;
use std::alloc::{AllocError, Global};
use std::marker::Model;

/// Which value of a dimension is the parent of which, without a loop (docs/LANGUAGE.md, "Hierarchies").
/// Contracts see it as the values in their order, each by its slot and with its parent. It keeps its
/// allocator.
#[derive(Drop)]
pub struct Hierarchy {
    alloc: Global,
    /// The values in the order of the dimension.
    slots: Vec<u16>,
    /// For each slot that was given the parent of its value.
    parents: Vec<Option<u16>>,
    /// For each slot that was given the children of its value.
    children: List<List<u16>>,
    /// The values, each behind its children.
    upward: Vec<u16>,
}

impl Model for Hierarchy {
    ghost use Rattle.aw_rel.specs.Hierarchy.{Tree};

    ghost Value = { Tree };

    ghost use Rattle.aw_rel.specs.inside.Tables.{tree_by, IsHeld};

    ghost view = { λ h. tree_by h.slots.items h.parents.items };

    ghost invariant = { λ h. IsHeld h.slots.items h.parents.items h.children h.upward.items };
}

impl Hierarchy {
    /// The hierarchy of a dimension's values in which a relation gives the parents: a cell's slot is the
    /// parent of the value at its key, where a value has that slot. `Loop` names the first value that is
    /// its own proper ancestor. The relation has keys of one slot and cells that are slots.
    pub fn check(
        alloc: Global,
        dimension: &Dimension,
        parents: &Variable,
    ) -> Result<Hierarchy, RelFault>
        requires keys { parents.now.slots ≡ 1 }
        requires kind { parents.now.kind ≡ SlotKind }
        ensures value { IfOk result (λ hierarchy. hierarchy ≡ tree_of dimension.now parents.now.cells) }
        ensures none { OnOk result (first_loop (tree_of dimension.now parents.now.cells) ≡ None) }
        ensures cause { IfErr result (λ fault. IsCause (first_loop (tree_of dimension.now parents.now.cells)) fault) }
    {
        let slots = slots_of(alloc, dimension)?;
        let room = dimension.next() as usize;
        let parents = parents_of(alloc, dimension, room, slots.as_slice(), parents)?;
        let children = children_of(alloc, slots.as_slice(), parents.as_slice())?;
        let clearing = cleared(
            alloc,
            slots.as_slice(),
            parents.as_slice(),
            children.as_slice(),
        )?;
        match first_uncleared(slots.as_slice(), clearing.cleared.as_slice()) {
            Some(slot) => Err(RelFault::Loop { slot }),
            None => Ok(Hierarchy {
                alloc,
                slots,
                parents,
                children,
                upward: clearing.upward,
            }),
        }
    }

    /// The parent of the value with a slot, `None` where it has none. It takes no memory.
    pub fn parent(&self, slot: u16) -> Option<u16>
        ensures parent { result ≡ parent_in self.now slot }
        ensures valid { IsHierarchy self.now }
    {
        match self.parents.get(usize::from(slot)) {
            Some(parent) => *parent,
            None => None,
        }
    }

    /// The values whose parent has a slot, in the order of the dimension. It takes no memory.
    pub fn children(&self, slot: u16) -> &[u16]
        ensures { result.now ≡ children_in self.now slot }
    {
        match self.children.get(usize::from(slot)) {
            Some(children) => children.as_slice(),
            None => &self.slots.as_slice()[..0],
        }
    }

    /// Whether the values are the one with a slot, or below it, by their slots.
    fn within(&self, slot: u16) -> Result<Vec<bool>, AllocError>
        ensures within { IfOk result (λ within. (value : ℕ) → is_among (slots_in self.now) value ≡ true → slice_index_or within.items value false ≡ is_within self.now slot value) }
        ensures room { IfOk result (λ within. (value : ℕ) → is_among (slots_in self.now) value ≡ true → value < length within.items) }
    {
        let (parents, upward) = (self.parents.as_slice(), self.upward.as_slice());
        let mut within = vec![in self.alloc; false; parents.len()]?;
        let mut left = upward.len();
        while left > 0 {
            left -= 1;
            let at = usize::from(upward[left]);
            let above = is_marked(within.as_slice(), parents[at]);
            within[at] = (slot == upward[left]) | above;
        }
        Ok(within)
    }

    /// The values that have no children and are the one with a slot, or below it, in the order of the
    /// dimension. The only error is want of memory.
    pub fn leaves(&self, slot: u16) -> Result<List<u16>, AllocError>
        ensures { IfOk result (λ leaves. leaves ≡ leaves_in self.now slot) }
    {
        let within = self.within(slot)?;
        let (slots, children) = (self.slots.as_slice(), self.children.as_slice());
        leaves_among(self.alloc, slots, children, within.as_slice())
    }
}
