ghost use Rattle.std.specs.Prelude.{◌≡◌, ℕ, length, IfOk, OnErr, IfSome, IsSome, IsTrue, if◌then◌else◌};
ghost use Rattle.std.specs.Option.{is_some};
ghost use Rattle.aw_body.specs.declared.body.Body.{Body as BodyValue};
ghost use Rattle.aw_body.specs.KeptBodies.{bodies_of, bodies_from};
ghost use Rattle.mv_core.specs.declared.entry.Entry.TheVariants as asked;
ghost use Rattle.mv_core.specs.declared.entry.Reply.TheVariants as answer;
ghost use Rattle.mv_core.specs.Effects as effects;
ghost use Rattle.mv_core.specs.Effects.{objects_after};
ghost use Rattle.mv_core.specs.Following.{followed_by, table_followed};
ghost use Rattle.mv_core.specs.Lookups.{kept_at};
ghost use Rattle.mv_core.specs.Objects.{IsTable};
ghost use Rattle.mv_core.specs.Prepared.{settled, makes, HasForms, IsReadyFor};
ghost use Rattle.mv_core.specs.Refusals.{IsKept, IsTrueOwned, IsTrueNewer, IsTrueStranger, IsTrueWorn};
ghost use Rattle.mv_core.specs.Replies as replies;
ghost use Rattle.mv_core.specs.Replies.{reply_of};
ghost use Rattle.mv_core.specs.SharedStep.{writes, takes_memory, table_step, IsLegal, IsAnswered};
ghost use Rattle.mv_core.specs.Workspace.{Workspace, Table, opened, table_of};

use crate::asking::{acquire_block, all_latest, first_not_own, first_unkept, kept, latest};
use crate::changing::to_follow;
use crate::entry::{Entry, Reply};
use crate::object::Object;
use crate::opening::{definitions_of, first_objects};
use crate::preparing::commit;
use crate::ready::{Ready, Todo};
use crate::settling::{free, free_all, put, settle};
use aw_body::{Body, Change, Seen};
use aw_lists::List;
use aw_schema::{Catalogue, Def};
use std::alloc::{AllocError, Global};
use std::marker::Model;

/// The shared state: each object of a catalogue as it stands, in order of definition. Objects that aren't
/// kept have no generations and no owner. Contracts see the definitions and the objects.
/// See docs/SHARING.md.
#[derive(Drop)]
pub struct Shared {
    definitions: Vec<Def>,
    objects: Vec<Option<Object<Body>>>,
}

impl Model for Shared {
    ghost use Rattle.mv_core.specs.Objects.{IsTable};
    ghost use Rattle.mv_core.specs.Workspace.{Table};

    ghost Value = { Table };

    ghost view = { λ s. record { definitions = s.definitions.items; objects = s.objects.items } };

    ghost invariant = { λ s. IsTable s.definitions.items s.objects.items };
}

impl Shared {
    /// The objects of a catalogue, each kept one with its first generation and without an owner. The only
    /// error is want of memory.
    pub fn new(alloc: Global, catalogue: &Catalogue) -> Result<Shared, AllocError>
        ensures { IfOk result (λ shared. shared ≡ table_of (bodies_of catalogue.now) (opened catalogue.now)) }
    {
        let definitions = definitions_of(alloc, catalogue)?;
        let objects = first_objects(alloc, &definitions)?;
        Ok(Shared {
            definitions,
            objects,
        })
    }

    /// Whether an object is kept, and so has generations. It takes no memory.
    pub fn keeps(&self, object: u16) -> bool
        ensures value { result ≡ is_some (kept_at self.now.objects object) }
        ensures forms { IsTable self.now.definitions self.now.objects }
    {
        kept(&self.objects, object).is_some()
    }

    /// The latest number of a kept object, and its owner. It takes no memory.
    pub fn look(&self, object: u16) -> (u64, Option<u32>)
        requires { IsSome (kept_at self.now.objects object) }
        ensures { IfSome (kept_at self.now.objects object) (λ it. result ≡ (it.number, it.owner)) }
    {
        let it = kept(&self.objects, object).unwrap();
        (it.number, it.owner)
    }

    /// The body of the latest generation of a kept object. It takes no memory.
    pub fn body(&self, object: u16) -> &Body
        requires { IsSome (kept_at self.now.objects object) }
        ensures { IfSome (kept_at self.now.objects object) (λ it. result.now ≡ it.body) }
    {
        &kept(&self.objects, object).unwrap().body
    }

    /// Looks at an entry, and takes all memory that its answer needs: the reply and the new bodies. The
    /// only error is want of memory.
    pub fn prepare(&self, entry: &Entry) -> Result<Ready, AllocError>
        ensures reply { IfOk result (λ ready. ready.reply ≡ reply_of self.now.definitions self.now.objects entry.now) }
        ensures leaves { IfOk result (λ ready. settled self.now.objects ready.todo ≡ objects_after self.now.objects entry.now ready.reply) }
        ensures writes { IfOk result (λ ready. makes ready.todo ≡ writes entry.now ready.reply) }
        ensures forms { IfOk result (λ ready. HasForms self.now.definitions ready.todo) }
    {
        self.looked_at(entry)
    }

    fn looked_at(&self, entry: &Entry) -> Result<Ready, AllocError>
        ensures { IfOk result (IsReadyFor self.now.definitions self.now.objects entry.now) }
    {
        let alloc = *self.objects.allocator();
        match entry {
            Entry::Attach { .. } => {
                let latest = all_latest(alloc, &self.objects)?;
                Ok(Ready::new(Reply::Attached(latest), Todo::Nothing))
            }
            Entry::Acquire {
                who,
                keep,
                fresh,
                same,
            } => {
                let (keep, same) = (keep.as_slice(), same.as_slice());
                self.acquired(alloc, *who, keep, fresh.as_slice(), same)
            }
            Entry::Resync { who, objects } => self.resynced(alloc, *who, objects.as_slice()),
            Entry::Commit {
                who,
                changes,
                leave,
            } => {
                let (changes, leave) = (changes.as_slice(), leave.as_slice());
                commit(
                    alloc,
                    &self.definitions,
                    &self.objects,
                    *who,
                    changes,
                    leave,
                )
            }
            Entry::Release { who, objects } => self.released(alloc, *who, objects.as_slice()),
            Entry::Detach { who } => {
                Ok(Ready::new(Reply::Detached, Todo::FreeAll { who: *who }))
            }
        }
    }

    fn acquired(
        &self,
        alloc: Global,
        who: u32,
        keep: &[Seen],
        fresh: &[u16],
        same: &[Seen],
    ) -> Result<Ready, AllocError>
        ensures { IfOk result (IsReadyFor self.now.definitions self.now.objects (asked.Acquire who keep.now fresh.now same.now)) }
    {
        if let Some(blocked) = acquire_block(&self.objects, who, keep, fresh, same) {
            return Ok(Ready::new(blocked, Todo::Nothing));
        }
        let latest = latest(alloc, &self.objects, fresh)?;
        let objects = taken_of(alloc, keep, fresh)?;
        Ok(Ready::new(Reply::Acquired(latest), Todo::Take { who, objects }))
    }

    fn resynced(&self, alloc: Global, who: u32, listed: &[u16]) -> Result<Ready, AllocError>
        ensures { IfOk result (IsReadyFor self.now.definitions self.now.objects (asked.Resync who listed.now)) }
    {
        if let Some(object) = first_unkept(&self.objects, listed) {
            return Ok(Ready::new(Reply::Stranger { object }, Todo::Nothing));
        }
        let latest = latest(alloc, &self.objects, listed)?;
        Ok(Ready::new(Reply::Resynced(latest), Todo::Nothing))
    }

    fn released(&self, alloc: Global, who: u32, listed: &[u16]) -> Result<Ready, AllocError>
        ensures { IfOk result (IsReadyFor self.now.definitions self.now.objects (asked.Release who listed.now)) }
    {
        if let Some(object) = first_not_own(&self.objects, who, listed) {
            return Ok(Ready::new(Reply::Stranger { object }, Todo::Nothing));
        }
        let objects = List::from_slice(alloc, listed)?;
        Ok(Ready::new(Reply::Released, Todo::Free { who, objects }))
    }

    /// Answers an entry that was looked at, and does what it asks for. The objects are to stand as they
    /// stood when it was looked at. It takes no memory.
    pub fn settle(&mut self, ready: Ready) -> Reply
        requires { HasForms self.old.definitions ready.todo }
        ensures reply { result ≡ ready.reply }
        ensures table { self.new ≡ record self.old { objects = settled self.old.objects ready.todo } }
    {
        let (reply, todo) = ready.into_parts();
        settle(&mut self.objects, todo);
        reply
    }

    /// Answers an entry: a session gets the latest generations; objects that nobody owns, all that it asks
    /// for or none; commits changes to objects of its own; and gives them up. The rules are those of
    /// docs/SHARING.md. `Release` and `Detach` take no memory; any other entry may be answered `NoMemory`,
    /// which changes nothing.
    pub fn act(&mut self, entry: &Entry) -> Reply
        ensures step { (w : Workspace) (numbers : ℕ → ℕ) (firsts : ℕ → BodyValue) → self.old ≡ table_of (bodies_from w.definitions numbers firsts) w
            → IsLegal (bodies_from w.definitions numbers firsts) w entry.now result self.new }
        ensures table { IsAnswered self.old entry.now result self.new }
        ensures memory { result ≡ answer.NoMemory → IsTrue (takes_memory entry.now) }
        ensures definitions { self.new.definitions ≡ self.old.definitions }
        ensures count { length self.new.objects ≡ length self.old.objects }

        ensures kept { IsKept result self.old self.new }
        ensures owned { IsTrueOwned self.old entry.now result }
        ensures newer { IsTrueNewer self.old entry.now result }
        ensures stranger { IsTrueStranger self.old entry.now result }
        ensures worn { IsTrueWorn self.old entry.now result }
    {
        self.answer(entry)
    }

    fn answer(&mut self, entry: &Entry) -> Reply
        ensures { IsAnswered self.old entry.now result self.new }
    {
        match entry {
            Entry::Release { who, objects } => self.release(*who, objects.as_slice()),
            Entry::Detach { who } => self.detach(*who),
            _ => self.granted(entry),
        }
    }

    fn granted(&mut self, entry: &Entry) -> Reply
        requires { IsTrue (takes_memory entry.now) }
        ensures { IsAnswered self.old entry.now result self.new }
    {
        match self.prepare(entry) {
            Ok(ready) => self.settle(ready),
            Err(_) => Reply::NoMemory,
        }
    }

    fn release(&mut self, who: u32, listed: &[u16]) -> Reply
        ensures { (result, self.new) ≡ table_step self.old (asked.Release who listed.now) }
    {
        if let Some(object) = first_not_own(&self.objects, who, listed) {
            return Reply::Stranger { object };
        }
        free(&mut self.objects, who, listed);
        Reply::Released
    }

    fn detach(&mut self, who: u32) -> Reply
        ensures { (result, self.new) ≡ table_step self.old (asked.Detach who) }
    {
        free_all(&mut self.objects, who);
        Reply::Detached
    }

    /// Follows a commit that was made before, whoever made it, as replaying a disk does: `true` where each
    /// change is of a kept object whose number can rise, above the object of the change before it, and fits
    /// its latest body; the objects are then those after this commit, and have the owners that they had.
    /// `false` and an error, which is want of memory, leave all as it was.
    pub fn follow(&mut self, changes: &List<Change>) -> Result<bool, AllocError>
        ensures may { IfOk result (λ may. may ≡ replies.may_follow self.old.definitions self.old.objects changes.now) }
        ensures step { (w : Workspace) (numbers : ℕ → ℕ) (firsts : ℕ → BodyValue) → self.old ≡ table_of (bodies_from w.definitions numbers firsts) w
            → IfOk result (λ may. self.new ≡ table_of (bodies_from w.definitions numbers firsts) (if may then followed_by w changes.now else w)) }
        ensures table { IfOk result (λ may. self.new ≡ (if may then table_followed self.old changes.now else self.old)) }
        ensures err { OnErr result (self.new ≡ self.old) }
    {
        self.followed(changes.as_slice())
    }

    fn followed(&mut self, changes: &[Change]) -> Result<bool, AllocError>
        ensures may { IfOk result (λ may. may ≡ replies.may_follow self.old.definitions self.old.objects changes.now) }
        ensures table { IfOk result (λ may. self.new ≡ (if may then table_followed self.old changes.now else self.old)) }
        ensures err { OnErr result (self.new ≡ self.old) }
    {
        let alloc = *self.objects.allocator();
        match to_follow(alloc, &self.definitions, &self.objects, changes) {
            Ok(None) => Ok(false),
            Ok(Some(made)) => {
                put(&mut self.objects, made);
                Ok(true)
            }
            Err(error) => Err(error),
        }
    }
}

/// The objects of the two lists of an `Acquire` that become the session's.
fn taken_of(alloc: Global, keep: &[Seen], fresh: &[u16]) -> Result<List<u16>, AllocError>
    ensures { IfOk result (λ objects. objects ≡ effects.taken_of keep.now fresh.now) }
{
    let mut objects: Vec<u16> = keep.iter().map(|seen| seen.object).collect(alloc)?;
    objects.extend_from_slice(fresh)?;
    Ok(List::from_vec(objects))
}
