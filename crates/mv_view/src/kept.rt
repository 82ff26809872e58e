ghost use Rattle.std.specs.Prelude.{◌≡◌, ◌<◌, ◌≤◌, IfOk, OnOk, OnErr, false};
ghost use Rattle.aw_body.specs.Bodies.{IsBody, IsBodyOf};
ghost use Rattle.aw_body.specs.BodyPatches.{applied, CanTake};
ghost use Rattle.aw_body.specs.declared.body.Body.TheVariants.{Dim};
ghost use Rattle.aw_body.specs.declared.patch.BodyPatch.TheVariants.{Cells as CellPatch};
ghost use Rattle.mv_view.specs.ViewState.{IsSeen, IsKeyOf, AreCellsOf};
ghost use Rattle.mv_view.specs.Rules as rule;
ghost use Rattle.mv_view.specs.inside.Steps.{stepped};
ghost use Rattle.mv_view.specs.inside.Holding.{HoldsCells};

use crate::comparing::above;
use crate::fault::ViewFault;
use crate::writing::overwritten;
use aw_body::{Body, Change, difference, difference_gives_newer};
use aw_cell::Cell;
use aw_dim::Dimension;
use aw_lists::{Coord, List};
use aw_schema::DefKind;
use std::alloc::{AllocError, Global};
use std::marker::Model;

/// What is done to an object that a list names.
#[derive(Clone, Copy)]
pub enum Step {
    /// The private body is staged.
    Update,
    /// The private body becomes the staged one.
    Revert,
    /// The session owns it, and it isn't leaving.
    Own,
    /// It is given up, or marked as leaving.
    Release,
    /// What is staged was committed.
    Commit,
}

/// An object as a session sees it. A body that is equal to the one below it isn't kept twice.
#[derive(Drop)]
pub struct Kept {
    kind: DefKind,
    number: u64,
    base: Body,
    /// The staged body, where it differs from the base.
    staged: Option<Body>,
    /// The private body, where it isn't the staged one.
    private: Option<Body>,
    owned: bool,
    leaving: bool,
}

impl Model for Kept {
    ghost use Rattle.std.specs.Prelude.{◌≡◌, IfSome, is_some, true, unwrap_or};
    ghost use Rattle.aw_body.specs.BodyPatches.{difference};
    ghost use Rattle.mv_view.specs.ViewState.{ObjectView};

    ghost Value = { ObjectView };

    ghost view = { λ k. record {
      kind = k.kind;
      number = k.number;
      base = k.base;
      staged = unwrap_or k.staged k.base;
      private = unwrap_or k.private (unwrap_or k.staged k.base);
      owned = k.owned;
      leaving = k.leaving;
    } };

    ghost invariant = { λ k. IfSome k.staged (λ body. is_some (difference k.base body) ≡ true) };
}

impl Kept {
    /// The number of its generation.
    pub fn number(&self) -> u64
        ensures { result ≡ self.now.number }
    {
        self.number
    }

    /// Its private body.
    pub fn body(&self) -> &Body
        ensures { result.now ≡ self.now.private }
    {
        match &self.private {
            Some(body) => body,
            None => self.staged_body(),
        }
    }

    fn staged_body(&self) -> &Body
        ensures { result.now ≡ self.now.staged }
    {
        match &self.staged {
            Some(body) => body,
            None => &self.base,
        }
    }

    /// Whether the staged body differs from the base.
    pub fn is_staged(&self) -> bool
        requires { IsSeen self.now }
        ensures { result ≡ rule.is_staged self.now }
    {
        difference_gives_newer();
        self.staged.is_some()
    }

    /// The staged body becomes the private one.
    pub fn update(&mut self)
        requires { IsSeen self.old }
        ensures { self.new ≡ rule.staging self.old }
    {
        if let Some(body) = self.private.take() {
            self.staged = above(body, &self.base);
        }
    }

    /// The private body becomes the staged one.
    pub fn revert(&mut self)
        ensures { self.new ≡ rule.reverting self.old }
    {
        self.private = None;
    }

    /// As it is first seen: all three bodies are one generation, and it isn't owned.
    pub fn new(kind: DefKind, number: u64, body: Body) -> Kept
        ensures { result ≡ record { kind = kind; number = number; base = body; staged = body; private = body; owned = false; leaving = false } }
    {
        Kept {
            kind,
            number,
            base: body,
            staged: None,
            private: None,
            owned: false,
            leaving: false,
        }
    }

    /// Its definition.
    pub fn kind(&self) -> &DefKind
        ensures { result.now ≡ self.now.kind }
    {
        &self.kind
    }

    /// Whether the session owns it.
    pub fn owned(&self) -> bool
        ensures { result ≡ self.now.owned }
    {
        self.owned
    }

    /// Whether the next commit gives it up.
    pub fn leaving(&self) -> bool
        ensures { result ≡ self.now.leaving }
    {
        self.leaving
    }

    /// All three bodies become the latest generation.
    pub fn renew(&mut self, number: u64, body: Body)
        ensures { self.new ≡ record self.old { number = number; base = body; staged = body; private = body } }
    {
        self.number = number;
        self.base = body;
        self.staged = None;
        self.private = None;
    }

    /// The session owns it, and it isn't leaving.
    pub fn own(&mut self)
        ensures { self.new ≡ rule.owning self.old }
    {
        self.owned = true;
        self.leaving = false;
    }

    /// It is given up.
    fn give_up(&mut self)
        ensures { self.new ≡ rule.giving_up self.old }
    {
        self.owned = false;
        self.leaving = false;
    }

    /// Given up where nothing is staged, and marked as leaving else.
    pub fn release(&mut self)
        requires { IsSeen self.old }
        ensures { self.new ≡ rule.releasing self.old }
    {
        if self.is_staged() {
            self.leaving = true;
        } else {
            self.give_up();
        }
    }

    /// After a commit: a staged body is the next generation.
    fn rebase(&mut self)
        requires { IsSeen self.old }
        ensures { self.new ≡ rule.committing self.old }
    {
        difference_gives_newer();
        if let Some(body) = self.staged.take() {
            self.number = self.number.saturating_add(1);
            self.base = body;
        }
    }

    /// After a commit: a staged body is the next generation, and a leaving object is given up.
    pub fn commit(&mut self)
        requires { IsSeen self.old }
        ensures { self.new ≡ rule.after_commit self.old }
    {
        if self.owned {
            self.rebase();
            self.leave();
        }
    }

    /// A leaving object is given up.
    fn leave(&mut self)
        ensures { self.new ≡ rule.leaving_now self.old }
    {
        if self.leaving {
            self.give_up();
        }
    }

    /// One step.
    pub fn step(&mut self, step: Step)
        requires { IsSeen self.old }
        ensures { self.new ≡ stepped step self.old }
    {
        match step {
            Step::Update => self.update(),
            Step::Revert => self.revert(),
            Step::Own => self.own(),
            Step::Release => self.release(),
            Step::Commit => self.commit(),
        }
    }

    /// The cell of its private body at a key, NA where that holds no cells.
    pub fn cell(&self, at: &Coord) -> Cell
        requires seen { IsSeen self.now }
        requires key { IsKeyOf self.now.kind at.now }
        ensures { result ≡ rule.cell_in self.now.private at.now }
    {
        match self.body() {
            Body::Rel(cells) | Body::Var(cells) => cells.get(at),
            Body::Dim(_) | Body::Set(_) => Cell::Na,
        }
    }

    /// A valueset's private body becomes these slots.
    pub fn select(&mut self, slots: List<u16>)
        ensures { self.new ≡ rule.with_slots slots self.old }
    {
        self.private = Some(Body::Set(slots));
    }

    /// The staged and the private body of a dimension become these values.
    pub fn maintain(&mut self, values: Dimension)
        requires seen { IsSeen self.old }
        requires form { IsBodyOf self.old.kind (Dim values) }
        ensures { self.new ≡ rule.with_values values self.old }
    {
        let _ = values.next();
        self.staged = above(Body::Dim(values), &self.base);
        self.private = None;
    }

    /// The private body with these cells, one after the other. After an error all is as it was.
    pub fn write(&mut self, cells: &[(Coord, Cell)]) -> Result<(), ViewFault>
        requires seen { IsSeen self.old }
        requires cells { AreCellsOf self.old.kind cells.now }
        ensures ok { OnOk result (self.new ≡ rule.with_cells cells.now self.old) }
        ensures full { result ≡ Err ViewFault.Full → 65536 < rule.pages_of (applied self.old.private (CellPatch cells.now)) }
        ensures room { OnOk result (rule.pages_of (applied self.old.private (CellPatch cells.now)) ≤ 65536) }
        ensures err { OnErr result (self.new ≡ self.old) }
        ensures valid { OnOk result (IsBody (applied self.old.private (CellPatch cells.now))) }
    {
        match written(self.body(), cells) {
            Ok(newer) => {
                self.private = Some(newer);
                Ok(())
            }
            Err(fault) => Err(fault),
        }
    }

    /// What a commit changes of it, under its number: nothing where it isn't owned, or nothing is staged.
    pub fn change(&self, alloc: Global, object: u16) -> Result<Option<Change>, AllocError>
        requires { IsSeen self.now }
        ensures { IfOk result (λ change. change ≡ rule.change_of object self.now) }
    {
        difference_gives_newer();
        if !self.owned {
            return Ok(None);
        }
        let Some(staged) = &self.staged else {
            return Ok(None);
        };
        match difference(alloc, &self.base, staged) {
            Ok(Some(patch)) => Ok(Some(Change { object, patch })),
            Ok(None) => Ok(None),
            Err(error) => Err(error),
        }
    }
}

/// Looks at a body for what holds of every one.
pub fn look_at(body: &Body)
    ensures { IsBody body.now }
{
    match body {
        Body::Dim(values) => {
            values.next();
        }
        Body::Rel(cells) | Body::Var(cells) => {
            cells.is_empty();
        }
        Body::Set(_) => {}
    }
}

/// A body with these cells, one after the other.
fn written(body: &Body, cells: &[(Coord, Cell)]) -> Result<Body, ViewFault>
    requires cells { CanTake body.now (CellPatch cells.now) }
    requires holds { HoldsCells body.now }
    ensures value { IfOk result (λ newer. newer ≡ applied body.now (CellPatch cells.now)) }
    ensures valid { IfOk result (λ newer. IsBody newer) }
    ensures room { IfOk result (λ newer. rule.pages_of newer ≤ 65536) }
    ensures full { result ≡ Err ViewFault.Full → 65536 < rule.pages_of (applied body.now (CellPatch cells.now)) }
{
    match body {
        Body::Rel(before) => match overwritten(before, cells) {
            Ok(newer) => Ok(Body::Rel(newer)),
            Err(fault) => Err(fault),
        },
        Body::Var(before) => match overwritten(before, cells) {
            Ok(newer) => Ok(Body::Var(newer)),
            Err(fault) => Err(fault),
        },
        Body::Dim(_) | Body::Set(_) => unreachable!(),
    }
}
