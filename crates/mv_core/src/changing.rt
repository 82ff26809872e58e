//! Which changes may be made, and what they make of the objects.

ghost use Rattle.std.specs.Prelude.{◌≡◌, IfOk, IfSome, All};
ghost use Rattle.std.specs.Option.{is_some};
ghost use Rattle.mv_core.specs.Effects.{each, renewed, committed};
ghost use Rattle.mv_core.specs.Objects.{AreObjectsOf};
ghost use Rattle.mv_core.specs.Prepared.{IsOfForm};
ghost use Rattle.mv_core.specs.Lookups.{kept_at};
ghost use Rattle.mv_core.specs.Replies as replies;
ghost use Rattle.mv_core.specs.inside.Making.{IsMakable, made_of};

use crate::asking::{first_not_own, is_own, kept};
use crate::entry::Reply;
use crate::object::Object;
use aw_body::{Body, Change, Fresh, apply, fits};
use aw_schema::Def;
use std::alloc::{AllocError, Global};

/// Whether a change fits the latest body of its object, which is kept then.
fn fits_object(definitions: &[Def], objects: &[Option<Object<Body>>], change: &Change) -> bool
    ensures { result ≡ replies.fits_object definitions.now (kept_at objects.now change.now.object) change.now }
{
    match (
        kept(objects, change.object),
        definitions.get(usize::from(change.object)),
    ) {
        (Some(it), Some(def)) => fits(&change.patch, def, &it.body),
        _ => false,
    }
}

/// Whether a change may be made: by this session, or by anybody where no session is given.
fn may_make(
    definitions: &[Def],
    objects: &[Option<Object<Body>>],
    by: Option<u32>,
    change: &Change,
) -> bool
    ensures { result ≡ replies.may_make definitions.now objects.now by change.now }
{
    match by {
        Some(who) => {
            is_own(objects, who, change.object) && fits_object(definitions, objects, change)
        }
        None => fits_object(definitions, objects, change),
    }
}

/// The object of the first change that may not be made, or that isn't above the one before it.
pub fn first_refused(
    definitions: &[Def],
    objects: &[Option<Object<Body>>],
    by: Option<u32>,
    changes: &[Change],
) -> Option<u16>
    ensures { result ≡ replies.first_refused (replies.may_make definitions.now objects.now by) 0 changes.now }
{
    let mut least = 0;
    for change in changes {
        if u32::from(change.object) < least || !may_make(definitions, objects, by, change) {
            return Some(change.object);
        }
        least = u32::from(change.object) + 1;
    }
    None
}

fn is_worn(objects: &[Option<Object<Body>>], object: u16) -> bool
    ensures { result ≡ replies.is_worn (kept_at objects.now object) }
{
    match kept(objects, object) {
        Some(it) => it.number >= u64::MAX,
        None => false,
    }
}

/// The first changed object whose number can't rise.
pub fn first_worn(objects: &[Option<Object<Body>>], changes: &[Change]) -> Option<u16>
    ensures { result ≡ replies.first_worn objects.now changes.now }
{
    for change in changes {
        if is_worn(objects, change.object) {
            return Some(change.object);
        }
    }
    None
}

/// What blocks a commit, by its refusal.
pub fn commit_block(
    definitions: &[Def],
    objects: &[Option<Object<Body>>],
    who: u32,
    changes: &[Change],
    leave: &[u16],
) -> Option<Reply>
    ensures { result ≡ replies.commit_block definitions.now objects.now who changes.now leave.now }
{
    if let Some(object) = first_refused(definitions, objects, Some(who), changes) {
        return Some(Reply::Stranger { object });
    }
    if let Some(object) = first_not_own(objects, who, leave) {
        return Some(Reply::Stranger { object });
    }
    match first_worn(objects, changes) {
        Some(object) => Some(Reply::Worn { object }),
        None => None,
    }
}

/// Whether changes may follow, whoever made them.
fn may_follow(definitions: &[Def], objects: &[Option<Object<Body>>], changes: &[Change]) -> bool
    ensures { result ≡ replies.may_follow definitions.now objects.now changes.now }
{
    first_refused(definitions, objects, None, changes).is_none()
        && first_worn(objects, changes).is_none()
}

/// The generations that changes make.
pub fn made(
    alloc: Global,
    objects: &[Option<Object<Body>>],
    changes: &[Change],
) -> Result<Vec<Fresh>, AllocError>
    requires { All (IsMakable objects.now) changes.now }
    ensures { IfOk result (λ made. made.items ≡ made_of objects.now changes.now) }
{
    let mut made = Vec::with_capacity(alloc, changes.len())?;
    for change in changes {
        if let Some(it) = kept(objects, change.object) {
            made.push(Fresh {
                object: change.object,
                number: it.number + 1,
                body: apply(alloc, &it.body, &change.patch)?,
            })?;
        }
    }
    Ok(made)
}

/// The generations that changes make where they may follow, whoever made them.
pub fn to_follow(
    alloc: Global,
    definitions: &[Def],
    objects: &[Option<Object<Body>>],
    changes: &[Change],
) -> Result<Option<Vec<Fresh>>, AllocError>
    requires { AreObjectsOf definitions.now objects.now }
    ensures may { IfOk result (λ found. is_some found ≡ replies.may_follow definitions.now objects.now changes.now) }
    ensures made { IfOk result (λ found. IfSome found (λ made. each (renewed made.items) objects.now ≡ committed objects.now changes.now)) }
    ensures forms { IfOk result (λ found. IfSome found (λ made. All (IsOfForm definitions.now) made.items)) }
{
    if !may_follow(definitions, objects, changes) {
        return Ok(None);
    }
    let made = made(alloc, objects, changes)?;
    Ok(Some(made))
}
