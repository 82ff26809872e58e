//! What is done to the objects. Nothing here takes memory.

ghost use Rattle.std.specs.Prelude.{◌≡◌, ◌∷◌, []};
ghost use Rattle.std.specs.Option.{option_map};
ghost use Rattle.mv_core.specs.Effects as effects;
ghost use Rattle.mv_core.specs.Prepared.{settled};

use crate::object::Object;
use crate::ready::Todo;
use aw_body::{Body, Fresh};

/// Does what is to be done.
pub fn settle(objects: &mut [Option<Object<Body>>], todo: Todo)
    ensures { objects.new ≡ settled objects.old todo }
{
    match todo {
        Todo::Nothing => {}
        Todo::Take {
            who,
            objects: listed,
        } => take(objects, who, listed.as_slice()),
        Todo::Renew { who, made, leave } => {
            put(objects, made.into_vec());
            free(objects, who, leave.as_slice());
        }
        Todo::Free {
            who,
            objects: listed,
        } => free(objects, who, listed.as_slice()),
        Todo::FreeAll { who } => free_all(objects, who),
    }
}

/// The session takes these objects.
pub fn take(objects: &mut [Option<Object<Body>>], who: u32, listed: &[u16])
    ensures { objects.new ≡ effects.each (effects.take_listed who listed.now) objects.old }
{
    for object in listed {
        take_one(objects, who, *object);
    }
}

fn take_one(objects: &mut [Option<Object<Body>>], who: u32, object: u16)
    ensures { objects.new ≡ effects.each (effects.take_listed who (object ∷ [])) objects.old }
{
    let at = usize::from(object);
    if at < objects.len() {
        own(&mut objects[at], who);
    }
}

/// The session becomes the owner of an object that is kept.
fn own(found: &mut Option<Object<Body>>, who: u32)
    ensures { found.new ≡ option_map (effects.owned_by who) found.old }
{
    if let Some(it) = found {
        it.owner = Some(who);
    }
}

/// The session gives up those of these objects that it owns.
pub fn free(objects: &mut [Option<Object<Body>>], who: u32, listed: &[u16])
    ensures { objects.new ≡ effects.each (effects.free_listed who listed.now) objects.old }
{
    for object in listed {
        free_one(objects, who, *object);
    }
}

fn free_one(objects: &mut [Option<Object<Body>>], who: u32, object: u16)
    ensures { objects.new ≡ effects.each (effects.free_listed who (object ∷ [])) objects.old }
{
    let at = usize::from(object);
    if at < objects.len() {
        give_up(&mut objects[at], who);
    }
}

/// The session gives up all that it owns.
pub fn free_all(objects: &mut [Option<Object<Body>>], who: u32)
    ensures { objects.new ≡ effects.each (effects.free_own who) objects.old }
{
    for at in 0..objects.len() {
        give_up(&mut objects[at], who);
    }
}

/// The session gives up an object where it owns it.
fn give_up(found: &mut Option<Object<Body>>, who: u32)
    ensures { found.new ≡ option_map (effects.freed_by who) found.old }
{
    if let Some(it) = found {
        if it.owner == Some(who) {
            it.owner = None;
        }
    }
}

/// These generations become the latest ones of their objects, the first where there are several.
pub fn put(objects: &mut [Option<Object<Body>>], made: Vec<Fresh>)
    ensures { objects.new ≡ effects.each (effects.renewed made.items) objects.old }
{
    let mut made = made;
    while let Some(fresh) = made.pop() {
        put_one(objects, fresh);
    }
}

fn put_one(objects: &mut [Option<Object<Body>>], fresh: Fresh)
    ensures { objects.new ≡ effects.each (effects.renewed (fresh ∷ [])) objects.old }
{
    let at = usize::from(fresh.object);
    if at < objects.len() {
        renew(&mut objects[at], fresh);
    }
}

/// A generation becomes the latest one of an object that is kept.
fn renew(found: &mut Option<Object<Body>>, fresh: Fresh)
    ensures { found.new ≡ option_map (effects.renewed_by fresh) found.old }
{
    let Fresh { number, body, .. } = fresh;
    if let Some(it) = found {
        it.number = number;
        it.body = body;
    }
}
