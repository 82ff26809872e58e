//! What is looked up among the objects as they stand, and what stands in an entry's way.

ghost use Rattle.std.specs.Prelude.{◌≡◌, ◌≤◌, length, IfOk, IfSome, false};
ghost use Rattle.std.specs.Option.{option_copied};
ghost use Rattle.mv_core.specs.declared.entry.Entry.TheVariants.{Acquire};
ghost use Rattle.mv_core.specs.Effects.{objects_after};
ghost use Rattle.mv_core.specs.Lookups as spec;
ghost use Rattle.mv_core.specs.Replies as replies;
ghost use Rattle.mv_core.specs.SharedStep.{writes};

use crate::entry::Reply;
use crate::object::Object;
use aw_body::{Body, Fresh, Seen};
use aw_lists::List;
use std::alloc::{AllocError, Global};

/// The object that has a number, where it is kept.
pub fn kept(objects: &[Option<Object<Body>>], object: u16) -> Option<&Object<Body>>
    ensures { option_copied result ≡ spec.kept_at objects.now object }
{
    match objects.get(usize::from(object)) {
        Some(Some(it)) => Some(it),
        _ => None,
    }
}

/// Whether a session owns an object, which is kept then.
pub fn is_own(objects: &[Option<Object<Body>>], who: u32, object: u16) -> bool
    ensures { result ≡ spec.is_own who (spec.kept_at objects.now object) }
{
    match kept(objects, object) {
        Some(it) => it.owner == Some(who),
        None => false,
    }
}

/// The latest generation of an object.
fn fresh(alloc: Global, object: u16, it: &Object<Body>) -> Result<Fresh, AllocError>
    ensures { IfOk result (λ fresh. fresh ≡ spec.fresh_of object it.now) }
{
    Ok(Fresh {
        object,
        number: it.number,
        body: it.body.copied(alloc)?,
    })
}

/// The latest generations of those of these objects that are kept.
pub fn latest(
    alloc: Global,
    objects: &[Option<Object<Body>>],
    listed: &[u16],
) -> Result<List<Fresh>, AllocError>
    ensures { IfOk result (λ latest. latest ≡ spec.latest_of objects.now listed.now) }
{
    let mut latest = Vec::with_capacity(alloc, listed.len())?;
    for object in listed {
        if let Some(it) = kept(objects, *object) {
            latest.push(fresh(alloc, *object, it)?)?;
        }
    }
    Ok(List::from_vec(latest))
}

/// The latest generations of all kept objects.
pub fn all_latest(
    alloc: Global,
    objects: &[Option<Object<Body>>],
) -> Result<List<Fresh>, AllocError>
    requires { length objects.now ≤ 65536 }
    ensures { IfOk result (λ latest. latest ≡ spec.latest_from 0 objects.now) }
{
    let mut latest = Vec::with_capacity(alloc, objects.len())?;
    for (at, found) in objects.iter().enumerate() {
        if let Some(it) = found {
            latest.push(fresh(alloc, at as u16, it)?)?;
        }
    }
    Ok(List::from_vec(latest))
}

/// What blocks an object of which the session has the generation `seen`, or asks for the latest.
fn block(
    objects: &[Option<Object<Body>>],
    who: u32,
    object: u16,
    seen: Option<u64>,
) -> Option<Reply>
    ensures { result ≡ replies.block who object seen (spec.kept_at objects.now object) }
{
    match kept(objects, object) {
        None => Some(Reply::Stranger { object }),
        Some(it) => match it.owner {
            Some(by) if by == who => None,
            Some(by) => Some(Reply::Owned { object, by }),
            None => newer(object, seen, it.number),
        },
    }
}

/// A generation that is newer than the session's.
fn newer(object: u16, seen: Option<u64>, latest: u64) -> Option<Reply>
    ensures { result ≡ replies.newer object seen latest }
{
    match seen {
        Some(number) if number < latest => Some(Reply::Newer {
            object,
            number: latest,
        }),
        _ => None,
    }
}

fn seen_block(objects: &[Option<Object<Body>>], who: u32, listed: &[Seen]) -> Option<Reply>
    ensures { result ≡ replies.seen_block objects.now who listed.now }
{
    for seen in listed {
        if let Some(refusal) = block(objects, who, seen.object, Some(seen.number)) {
            return Some(refusal);
        }
    }
    None
}

fn fresh_block(objects: &[Option<Object<Body>>], who: u32, listed: &[u16]) -> Option<Reply>
    ensures { result ≡ replies.fresh_block objects.now who listed.now }
{
    for object in listed {
        if let Some(refusal) = block(objects, who, *object, None) {
            return Some(refusal);
        }
    }
    None
}

/// The first object of an `Acquire` that blocks, by its refusal.
pub fn acquire_block(
    objects: &[Option<Object<Body>>],
    who: u32,
    keep: &[Seen],
    fresh: &[u16],
    same: &[Seen],
) -> Option<Reply>
    ensures value { result ≡ replies.acquire_block objects.now who keep.now fresh.now same.now }
    ensures still { IfSome result (λ refusal. objects_after objects.now (Acquire who keep.now fresh.now same.now) refusal ≡ objects.now) }
    ensures unwritten { IfSome result (λ refusal. writes (Acquire who keep.now fresh.now same.now) refusal ≡ false) }
{
    blocked(objects, who, keep, fresh, same)
}

fn blocked(
    objects: &[Option<Object<Body>>],
    who: u32,
    keep: &[Seen],
    fresh: &[u16],
    same: &[Seen],
) -> Option<Reply>
    ensures { result ≡ replies.acquire_block objects.now who keep.now fresh.now same.now }
{
    seen_block(objects, who, keep)
        .or_else(|| fresh_block(objects, who, fresh))
        .or_else(|| seen_block(objects, who, same))
}

/// The first of these objects that isn't kept.
pub fn first_unkept(objects: &[Option<Object<Body>>], listed: &[u16]) -> Option<u16>
    ensures { result ≡ replies.first_unkept objects.now listed.now }
{
    listed
        .iter()
        .copied()
        .find(|object| kept(objects, *object).is_none())
}

/// The first of these objects that isn't the session's.
pub fn first_not_own(objects: &[Option<Object<Body>>], who: u32, listed: &[u16]) -> Option<u16>
    ensures { result ≡ replies.first_not_own objects.now who listed.now }
{
    listed
        .iter()
        .copied()
        .find(|object| !is_own(objects, who, *object))
}
