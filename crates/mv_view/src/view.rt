ghost use Rattle.std.specs.Prelude.{◌≡◌, ◌≢◌, ◌≤◌, ◌<◌, ◌↔◌, map, length, true, IsOk, IsSome, IsTrue, IfOk, OnOk, OnErr};
ghost use Rattle.std.specs.Option.{IsSomeAnd, option_copied, option_map};
ghost use Rattle.aw_body.specs.Bodies.{IsBodyOf};
ghost use Rattle.aw_body.specs.declared.body.Body.TheVariants.{Dim, Set};
ghost use Rattle.mv_view.specs.ViewState as spec;
ghost use Rattle.mv_view.specs.Rules as rule;

use crate::attaching::{fill, places};
use crate::fault::ViewFault;
use crate::gathering::gathered;
use crate::kept::{Kept, Step};
use crate::owned::{forget, own_all, own_fresh};
use crate::places::{kept_in, maintain_at, renew_all, select_at, step_all, write_at};
use aw_body::{Body, Change, Fresh, difference_gives_newer};
use aw_cell::Cell;
use aw_dim::Dimension;
use aw_lists::{Coord, List};
use aw_schema::{Catalogue, DefKind};
use std::alloc::{AllocError, Global};
use std::marker::Model;

/// What an attached session sees of the workspace, and what it makes of it (docs/SHARING.md, "A session's
/// view"). It keeps its allocator. Objects are named by their numbers.
#[derive(Drop)]
pub struct View {
    alloc: Global,
    who: u32,
    objects: List<Option<Kept>>,
    /// The objects that the session owns, in rising order, with room for all.
    owned: Vec<u16>,
}

impl Model for View {
    ghost use Rattle.std.specs.Prelude.{vec_capacity};
    ghost use Rattle.mv_view.specs.ViewState.{ViewState};
    ghost use Rattle.mv_view.specs.inside.Places.{IsListed};

    ghost Value = { ViewState };

    ghost view = { λ v. record { who = v.who; objects = v.objects } };

    ghost invariant = { λ v. IsListed v.objects v.owned.items (vec_capacity v.owned) };
}

impl View {
    /// The view of a session that attaches: all three bodies of each kept object are the generation that
    /// is handed over, and nothing is owned. There is one generation for each kept object of the
    /// catalogue, in order of definition, with a body of its form. The only error is want of memory.
    pub fn attach(
        alloc: Global,
        who: u32,
        catalogue: &Catalogue,
        fresh: List<Fresh>,
    ) -> Result<View, AllocError>
        requires objects { rule.objects_of fresh ≡ spec.kept_objects (spec.kept_kinds catalogue.now) }
        requires forms { spec.HaveForms (spec.kept_kinds catalogue.now) fresh }
        ensures { IfOk result (λ view. view ≡ rule.attached who catalogue.now fresh) }
    {
        let count = catalogue.len() as usize;
        let owned = Vec::with_capacity(alloc, count)?;
        let mut objects = places(alloc, count)?;
        fill(&mut objects, catalogue, fresh);
        Ok(View {
            alloc,
            who,
            objects,
            owned,
        })
    }

    /// The cell of a relation or a variable at a key of its number of slots, as the session reads it. A
    /// cell of a relation whose value the session's target dimension lacks reads NA.
    pub fn read(&self, object: u16, at: &Coord) -> Cell
        requires { IsSomeAnd (spec.object_of self.now object) (λ found. spec.IsKeyOf found.kind at.now) }
        ensures { result ≡ rule.read self.now object at.now }
    {
        match kept_in(&self.objects, object) {
            Some(kept) => self.reached_by(kept.kind(), kept.cell(at)),
            None => Cell::Na,
        }
    }

    fn reached_by(&self, kind: &DefKind, cell: Cell) -> Cell
        ensures { result ≡ rule.reached_by self.now kind.now cell }
    {
        match kind {
            DefKind::Relation { target, .. } => self.reached(*target, cell),
            _ => cell,
        }
    }

    /// A cell of a relation to this dimension: NA where the dimension lacks the value.
    fn reached(&self, target: u16, cell: Cell) -> Cell
        ensures { result ≡ rule.reached cell (rule.private_of self.now target) }
    {
        match cell {
            Cell::Slot(slot) => {
                if self.has_slot(target, slot) {
                    cell
                } else {
                    Cell::Na
                }
            }
            _ => cell,
        }
    }

    fn has_slot(&self, dimension: u16, slot: u16) -> bool
        ensures { result ≡ rule.has_slot (rule.private_of self.now dimension) slot }
    {
        match kept_in(&self.objects, dimension) {
            Some(kept) => match kept.body() {
                Body::Dim(values) => values.name_of(slot).is_some(),
                _ => false,
            },
            None => false,
        }
    }

    /// The values of a dimension, as the session sees them, or `None` where it sees no such dimension.
    pub fn values(&self, dimension: u16) -> Option<&Dimension>
        ensures { option_copied result ≡ rule.values_in self.now dimension }
    {
        match kept_in(&self.objects, dimension) {
            Some(kept) => match kept.body() {
                Body::Dim(values) => Some(values),
                _ => None,
            },
            None => None,
        }
    }

    /// Tells that the three bodies of each object have the form of its definition, as they always have.
    pub fn recall_forms(&self)
        ensures { spec.AreSeen self.now.objects }
    {
        let _ = &self.owned;
    }

    /// Writes cells of one relation or variable, one after the other, into the private body. Their keys
    /// have its number of slots, and they are NA or of its kind. `Full` where the body would then lie on
    /// more than 65,536 pages. After an error all is as it was.
    pub fn write(&mut self, object: u16, cells: &List<(Coord, Cell)>) -> Result<(), ViewFault>
        requires { IsSomeAnd (spec.object_of self.old object) (λ found. spec.AreCellsOf found.kind cells.now) }
        ensures ok { OnOk result (self.new ≡ rule.written self.old object cells.now) }
        ensures room { OnOk result (rule.private_pages self.new object ≤ 65536) }
        ensures full { result ≡ Err ViewFault.Full → 65536 < rule.private_pages (rule.written self.old object cells.now) object }
        ensures err { OnErr result (self.new ≡ self.old) }
    {
        write_at(&mut self.objects, object, cells.as_slice())
    }

    /// Sets the private body of a valueset. It takes no memory.
    pub fn select(&mut self, object: u16, slots: List<u16>)
        requires { IsSomeAnd (spec.object_of self.old object) (λ found. IsBodyOf found.kind (Set slots)) }
        ensures { self.new ≡ rule.selected self.old object slots }
    {
        select_at(&mut self.objects, object, slots);
    }

    /// Sets the staged and the private body of a dimension that is owned. It takes no memory.
    pub fn maintain(&mut self, object: u16, dimension: Dimension) -> Result<(), AllocError>
        requires { IsSomeAnd (spec.object_of self.old object) (λ found. IsBodyOf found.kind (Dim dimension) × (found.owned ≡ true)) }
        ensures ok { IsOk result }
        ensures after { self.new ≡ rule.maintained self.old object dimension }
    {
        maintain_at(&mut self.objects, object, dimension);
        Ok(())
    }

    /// Stages the private bodies of these objects, which are owned. It takes no memory.
    pub fn update(&mut self, objects: &List<u16>) -> Result<(), AllocError>
        requires { spec.AreOwned self.old objects.now }
        ensures ok { IsOk result }
        ensures after { self.new ≡ rule.updated self.old objects.now }
    {
        difference_gives_newer();
        step_all(&mut self.objects, objects.as_slice(), Step::Update);
        Ok(())
    }

    /// The private bodies of these objects become the staged ones. It takes no memory.
    pub fn revert(&mut self, objects: &List<u16>) -> Result<(), AllocError>
        ensures ok { IsOk result }
        ensures after { self.new ≡ rule.reverted self.old objects.now }
    {
        difference_gives_newer();
        step_all(&mut self.objects, objects.as_slice(), Step::Revert);
        Ok(())
    }

    /// What a commit changes: of each owned object whose staged body differs from its base the patch, by
    /// rising object. The only error is want of memory. What holds of every view is told here too.
    pub fn changes(&self) -> Result<List<Change>, AllocError>
        ensures changes { IfOk result (λ changes. changes ≡ rule.changes self.now) }
        ensures seen { spec.AreSeen self.now.objects }
    {
        gathered(self.alloc, &self.objects, &self.owned)
    }

    /// After ACQUIRE was granted: the objects of the plain list are owned, and those whose latest
    /// generation is handed over are owned and have it. It takes no memory.
    pub fn own(&mut self, keep: &List<u16>, fresh: List<Fresh>)
        requires { spec.HaveForms (spec.kinds_of self.old) fresh }
        ensures { self.new ≡ rule.acquired self.old keep.now fresh }
    {
        difference_gives_newer();
        own_all(&mut self.objects, &mut self.owned, keep.as_slice());
        own_fresh(&mut self.objects, &mut self.owned, fresh.as_slice());
        renew_all(&mut self.objects, fresh);
    }

    /// After RESYNC: these generations take the place of all three bodies. It takes no memory.
    pub fn take(&mut self, fresh: List<Fresh>)
        requires { spec.HaveForms (spec.kinds_of self.old) fresh }
        ensures { self.new ≡ rule.resynced self.old fresh }
    {
        renew_all(&mut self.objects, fresh);
    }

    /// After a commit that was granted: what was staged is the next generation, and what was leaving is
    /// given up. It takes no memory.
    pub fn committed(&mut self)
        ensures { self.new ≡ rule.committed self.old }
    {
        difference_gives_newer();
        step_all(&mut self.objects, self.owned.as_slice(), Step::Commit);
        forget(&self.objects, &mut self.owned);
    }

    /// Gives up these objects, which are owned, where nothing of them is staged, and marks the others as
    /// leaving. It takes no memory.
    pub fn release(&mut self, objects: &List<u16>)
        requires { spec.AreOwned self.old objects.now }
        ensures { self.new ≡ rule.released self.old objects.now }
    {
        difference_gives_newer();
        step_all(&mut self.objects, objects.as_slice(), Step::Release);
        forget(&self.objects, &mut self.owned);
    }

    /// The objects that the session owns, in rising order.
    pub fn owned_objects(&self) -> &[u16]
        ensures { result.now ≡ spec.owned_objects self.now }
    {
        self.owned.as_slice()
    }

    /// The private body of a kept object, which is of the form of its definition.
    pub fn body(&self, object: u16) -> &Body
        requires { IsSome (spec.object_of self.now object) }
        ensures body { rule.private_of self.now object ≡ Some result.now }
        ensures seen { IsSomeAnd (spec.object_of self.now object) spec.IsSeen }
    {
        self.kept(object).body()
    }

    /// The number of the generation that the session has of a kept object.
    pub fn number(&self, object: u16) -> u64
        requires { IsSome (spec.object_of self.now object) }
        ensures { IsSomeAnd (spec.object_of self.now object) (λ found. result ≡ found.number) }
    {
        self.kept(object).number()
    }

    /// Whether the session owns a kept object.
    pub fn owned(&self, object: u16) -> bool
        requires { IsSome (spec.object_of self.now object) }
        ensures { IsSomeAnd (spec.object_of self.now object) (λ found. result ≡ found.owned) }
    {
        self.kept(object).owned()
    }

    /// Whether the next commit gives up a kept object.
    pub fn leaving(&self, object: u16) -> bool
        requires { IsSome (spec.object_of self.now object) }
        ensures { IsSomeAnd (spec.object_of self.now object) (λ found. result ≡ found.leaving) }
    {
        self.kept(object).leaving()
    }

    /// Whether the staged body of a kept object differs from its base.
    pub fn staged(&self, object: u16) -> bool
        requires { IsSome (spec.object_of self.now object) }
        ensures staged { IsSomeAnd (spec.object_of self.now object) (λ found. result ≡ rule.is_staged found) }
        ensures differs { IsSomeAnd (spec.object_of self.now object) (λ found. IsTrue result ↔ (found.staged ≢ found.base)) }
    {
        difference_gives_newer();
        self.kept(object).is_staged()
    }

    fn kept(&self, object: u16) -> &Kept
        requires { IsSome (spec.object_of self.now object) }
        ensures value { spec.object_of self.now object ≡ Some result.now }
        ensures seen { spec.IsSeen result.now }
    {
        match kept_in(&self.objects, object) {
            Some(kept) => kept,
            None => unreachable!(),
        }
    }
}
