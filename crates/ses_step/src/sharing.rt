//! The statements by which a session shares the workspace with others (docs/SHARING.md).

ghost use Rattle.std.specs.Prelude.{◌≡◌, [], ◌++◌, map, IfOk, OnErr, OnOk};
ghost use Rattle.mv_view.specs.Each.{passes};
ghost use Rattle.mv_view.specs.Laws.{unstaged_in};
ghost use Rattle.mv_view.specs.Rules as rule;
ghost use Rattle.mv_view.specs.ViewState.{kinds_of, kept_kinds, object_of, owned_objects, AreOwned};
ghost use Rattle.ses_step.specs.Sessions as spec;

use crate::answer::Answer;
use crate::command::Command;
use crate::objects::is_seen;
use crate::session::{Begun, Known, refused};
use aw_lists::List;
use aw_schema::Catalogue;
use mv_core::{Entry, Seen};
use mv_view::View;
use ses_report::Refusal;
use std::alloc::{AllocError, Global};

/// Whether something of an object is staged.
fn is_staged(catalogue: &Catalogue, view: &View, object: u16) -> bool
    requires { kinds_of view.now ≡ kept_kinds catalogue.now }
    ensures { result ≡ passes rule.is_staged (object_of view.now object) }
{
    is_seen(catalogue, view, object) && view.staged(object)
}

/// Whether an object is marked as leaving.
fn is_leaving(catalogue: &Catalogue, view: &View, object: u16) -> bool
    requires { kinds_of view.now ≡ kept_kinds catalogue.now }
    ensures { result ≡ passes spec.is_leaving (object_of view.now object) }
{
    is_seen(catalogue, view, object) && view.leaving(object)
}

/// The objects of these of which nothing is staged.
fn unstaged(
    alloc: Global,
    catalogue: &Catalogue,
    view: &View,
    objects: &[u16],
) -> Result<Vec<u16>, AllocError>
    requires { kinds_of view.now ≡ kept_kinds catalogue.now }
    ensures { IfOk result (λ unstaged. unstaged.items ≡ unstaged_in view.now objects.now) }
{
    objects
        .iter()
        .copied()
        .filter(|object| !is_staged(catalogue, view, *object))
        .collect(alloc)
}

/// The owned objects that are marked as leaving.
fn leaving(alloc: Global, catalogue: &Catalogue, view: &View) -> Result<Vec<u16>, AllocError>
    requires { kinds_of view.now ≡ kept_kinds catalogue.now }
    ensures { IfOk result (λ leaving. leaving.items ≡ spec.leaving view.now) }
{
    view.owned_objects()
        .iter()
        .copied()
        .filter(|object| is_leaving(catalogue, view, *object))
        .collect(alloc)
}

/// The objects of which the session has something, in order of definition.
fn seen_objects(alloc: Global, catalogue: &Catalogue, view: &View) -> Result<List<u16>, AllocError>
    requires { kinds_of view.now ≡ kept_kinds catalogue.now }
    ensures { IfOk result (λ objects. objects ≡ spec.seen_objects view.now) }
{
    let mut objects = List::new(alloc);
    for object in 0..catalogue.len() as u16 {
        if is_seen(catalogue, view, object) {
            objects.push(object)?;
        }
    }
    Ok(objects)
}

/// Stages these objects, or all that the session owns.
#[tactic(auto, using(crate::proofs::Seeing::owned_listed))]
fn stage(alloc: Global, view: &mut View, objects: &List<u16>) -> Result<(), AllocError>
    requires { AreOwned view.old objects.now }
    ensures ok { OnOk result (view.new ≡ rule.updated view.old (spec.or_all (owned_objects view.old) objects.now)) }
    ensures err { OnErr result (view.new ≡ view.old) }
{
    if objects.is_empty() {
        let owned = List::from_slice(alloc, view.owned_objects())?;
        view.update(&owned)
    } else {
        view.update(objects)
    }
}

/// Takes back what isn't staged of these objects, or of all.
fn take_back(
    alloc: Global,
    catalogue: &Catalogue,
    view: &mut View,
    objects: &List<u16>,
) -> Result<(), AllocError>
    requires { kinds_of view.old ≡ kept_kinds catalogue.now }
    ensures ok { OnOk result (view.new ≡ rule.reverted view.old (spec.or_all (spec.seen_objects view.old) objects.now)) }
    ensures err { OnErr result (view.new ≡ view.old) }
{
    if objects.is_empty() {
        let seen = seen_objects(alloc, catalogue, view)?;
        view.revert(&seen)
    } else {
        view.revert(objects)
    }
}

impl Known {
    /// The number of the generation that the session has of an object, and 0 where it has none.
    fn number(&self, catalogue: &Catalogue, object: u16) -> u64
        requires { spec.Sees catalogue.now self.now }
        ensures { result ≡ spec.number_in self.now object }
    {
        match &self.view {
            Some(view) => {
                if is_seen(catalogue, view, object) {
                    view.number(object)
                } else {
                    0
                }
            }
            None => 0,
        }
    }

    fn generation(&self, catalogue: &Catalogue, object: u16) -> Seen
        requires { spec.Sees catalogue.now self.now }
        ensures { result ≡ spec.generation_in self.now object }
    {
        Seen {
            object,
            number: self.number(catalogue, object),
        }
    }

    /// The generations that the session has of these objects.
    fn generations(
        &self,
        alloc: Global,
        catalogue: &Catalogue,
        objects: &[u16],
    ) -> Result<Vec<Seen>, AllocError>
        requires { spec.Sees catalogue.now self.now }
        ensures { IfOk result (λ seen. seen.items ≡ map (spec.generation_in self.now) objects.now) }
    {
        objects
            .iter()
            .map(|object| self.generation(catalogue, *object))
            .collect(alloc)
    }

    pub(crate) fn detach(&self) -> Begun
        ensures { (result, self.now) ≡ spec.begun [] self.now Command.Detach }
    {
        match &self.view {
            None => refused(Refusal::not_attached()),
            Some(_) => Begun::Ask(Entry::Detach { who: self.who }),
        }
    }

    pub(crate) fn acquire(
        &self,
        alloc: Global,
        catalogue: &Catalogue,
        keep: &List<u16>,
        fresh: &List<u16>,
        same: &List<u16>,
    ) -> Result<Begun, AllocError>
        requires { spec.Sees catalogue.now self.now }
        ensures { IfOk result (λ begun.
            (begun, self.now) ≡ spec.begun [] self.now (Command.Acquire keep.now fresh.now same.now)) }
    {
        if self.view.is_none() {
            return Ok(refused(Refusal::not_attached()));
        }
        let keep = self.generations(alloc, catalogue, keep.as_slice())?;
        let same = self.generations(alloc, catalogue, same.as_slice())?;
        Ok(Begun::Ask(Entry::Acquire {
            who: self.who,
            keep: List::from_vec(keep),
            fresh: List::from_slice(alloc, fresh.as_slice())?,
            same: List::from_vec(same),
        }))
    }

    pub(crate) fn resync(&self, alloc: Global, objects: &List<u16>) -> Result<Begun, AllocError>
        ensures { IfOk result (λ begun.
            (begun, self.now) ≡ spec.begun [] self.now (Command.Resync objects.now)) }
    {
        if self.view.is_none() {
            return Ok(refused(Refusal::not_attached()));
        }
        Ok(Begun::Ask(Entry::Resync {
            who: self.who,
            objects: List::from_slice(alloc, objects.as_slice())?,
        }))
    }

    /// Asks for those of which nothing is staged alone; where there is none, all are marked as leaving.
    pub(crate) fn release(
        &mut self,
        alloc: Global,
        catalogue: &Catalogue,
        objects: &List<u16>,
    ) -> Result<Begun, AllocError>
        requires sees { spec.Sees catalogue.now self.old }
        requires ready { spec.IsReady self.old (Command.Release objects.now) }
        ensures begun { IfOk result (λ begun.
            (begun, self.new) ≡ spec.begun [] self.old (Command.Release objects.now)) }
        ensures err { OnErr result (self.new ≡ self.old) }
    {
        let Some(view) = &mut self.view else {
            return Ok(refused(Refusal::not_attached()));
        };
        let unstaged = unstaged(alloc, catalogue, view, objects.as_slice())?;
        if unstaged.is_empty() {
            view.release(objects);
            return Ok(Begun::Said(Answer::Done));
        }
        Ok(Begun::Ask(Entry::Release {
            who: self.who,
            objects: List::from_vec(unstaged),
        }))
    }

    pub(crate) fn revert(
        &mut self,
        alloc: Global,
        catalogue: &Catalogue,
        objects: &List<u16>,
    ) -> Result<Begun, AllocError>
        requires { spec.Sees catalogue.now self.old }
        ensures begun { IfOk result (λ begun.
            (begun, self.new) ≡ spec.begun [] self.old (Command.Revert objects.now)) }
        ensures err { OnErr result (self.new ≡ self.old) }
    {
        match &mut self.view {
            None => Ok(refused(Refusal::not_attached())),
            Some(view) => {
                take_back(alloc, catalogue, view, objects)?;
                Ok(Begun::Said(Answer::Done))
            }
        }
    }

    pub(crate) fn update(&mut self, alloc: Global, objects: &List<u16>) -> Result<Begun, AllocError>
        requires { spec.IsReady self.old (Command.Update objects.now) }
        ensures begun { IfOk result (λ begun.
            (begun, self.new) ≡ spec.begun [] self.old (Command.Update objects.now)) }
        ensures err { OnErr result (self.new ≡ self.old) }
    {
        match &mut self.view {
            None => Ok(refused(Refusal::not_attached())),
            Some(view) => {
                stage(alloc, view, objects)?;
                Ok(Begun::Said(Answer::Done))
            }
        }
    }

    pub(crate) fn commit(&self, alloc: Global, catalogue: &Catalogue) -> Result<Begun, AllocError>
        requires { spec.Sees catalogue.now self.now }
        ensures { IfOk result (λ begun. (begun, self.now) ≡ spec.begun [] self.now Command.Commit) }
    {
        let Some(view) = &self.view else {
            return Ok(refused(Refusal::not_attached()));
        };
        let leave = leaving(alloc, catalogue, view)?;
        let changes = view.changes()?;
        if changes.is_empty() && leave.is_empty() {
            return Ok(Begun::Said(Answer::Done));
        }
        Ok(Begun::Ask(Entry::Commit {
            who: self.who,
            changes,
            leave: List::from_vec(leave),
        }))
    }
}
