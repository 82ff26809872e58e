//! The list of the objects that a session owns, which has room for all.

ghost use Rattle.std.specs.Prelude.{◌≡◌, ◌<◌, ◌≤◌, filter, insert, length, nat_lt, not, vec_capacity};
ghost use Rattle.std.specs.List.{prefix_len};
ghost use Rattle.aw_body.specs.Laws.{DifferenceGivesNewer};
ghost use Rattle.mv_view.specs.Each.{object_in, each_from, only, listed, passes};
ghost use Rattle.mv_view.specs.ViewState.{is_owned};
ghost use Rattle.mv_view.specs.Rules as rule;
ghost use Rattle.mv_view.specs.inside.Places.{IsListed};

use crate::kept::{Kept, Step};
use crate::places::{kept_in, step_at};
use aw_body::Fresh;
use aw_lists::List;

/// Whether the session owns an object.
pub fn is_owned(objects: &List<Option<Kept>>, object: u16) -> bool
    ensures { result ≡ passes is_owned (object_in objects.now object) }
{
    match kept_in(objects, object) {
        Some(kept) => kept.owned(),
        None => false,
    }
}

/// Whether an object is kept and the session doesn't own it.
fn is_free(objects: &List<Option<Kept>>, object: u16) -> bool
    ensures { result ≡ passes (λ found. not found.owned) (object_in objects.now object) }
{
    match kept_in(objects, object) {
        Some(kept) => !kept.owned(),
        None => false,
    }
}

/// How many of these objects are below one, from the front on.
fn place_of(owned: &[u16], object: u16) -> usize
    ensures place { result ≡ prefix_len (λ one. nat_lt one object) owned.now }
    ensures within { result ≤ length owned.now }
{
    owned.iter().take_while(|one| **one < object).count()
}

/// Lists one more object, behind those below it. There is room.
fn note(owned: &mut Vec<u16>, object: u16)
    requires { length owned.old.items < vec_capacity owned.old }
    ensures items { owned.new.items ≡ insert owned.old.items (prefix_len (λ one. nat_lt one object) owned.old.items) object }
    ensures room { vec_capacity owned.old ≤ vec_capacity owned.new }
{
    let place = place_of(owned.as_slice(), object);
    match owned.insert(place, object) {
        Ok(()) => {}
        Err(_) => unreachable!(),
    }
}

/// One object is owned.
fn own_at(objects: &mut List<Option<Kept>>, owned: &mut Vec<u16>, object: u16)
    requires { IsListed objects.old owned.old.items (vec_capacity owned.old) }
    ensures objects { objects.new ≡ each_from 0 (only object rule.owning) objects.old }
    ensures listed { IsListed objects.new owned.new.items (vec_capacity owned.new) }
{
    if is_free(objects, object) {
        note(owned, object);
    }
    step_at(objects, object, Step::Own);
}

/// Each of these objects is owned.
pub fn own_all(objects: &mut List<Option<Kept>>, owned: &mut Vec<u16>, list: &[u16])
    requires law { DifferenceGivesNewer }
    requires listed { IsListed objects.old owned.old.items (vec_capacity owned.old) }
    ensures objects { objects.new ≡ each_from 0 (listed list.now rule.owning) objects.old }
    ensures listed { IsListed objects.new owned.new.items (vec_capacity owned.new) }
{
    for object in list {
        own_at(objects, owned, *object);
    }
}

/// Each object whose latest generation is handed over is owned.
pub fn own_fresh(objects: &mut List<Option<Kept>>, owned: &mut Vec<u16>, fresh: &[Fresh])
    requires law { DifferenceGivesNewer }
    requires listed { IsListed objects.old owned.old.items (vec_capacity owned.old) }
    ensures objects { objects.new ≡ each_from 0 (listed (rule.objects_of fresh.now) rule.owning) objects.old }
    ensures listed { IsListed objects.new owned.new.items (vec_capacity owned.new) }
{
    for latest in fresh {
        own_at(objects, owned, latest.object);
    }
}

/// Leaves out those that the session doesn't own any more.
pub fn forget(objects: &List<Option<Kept>>, owned: &mut Vec<u16>)
    ensures items { owned.new.items ≡ filter (λ one. passes is_owned (object_in objects.now one)) owned.old.items }
    ensures room { vec_capacity owned.new ≡ vec_capacity owned.old }
{
    owned.retain(|object| is_owned(objects, *object));
}
