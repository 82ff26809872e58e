//! What a commit changes.

ghost use Rattle.std.specs.Prelude.{◌≡◌, ◌++◌, IfOk, OnOk, vec_capacity};
ghost use Rattle.std.specs.Option.{option_and_then, option_to_list};
ghost use Rattle.mv_view.specs.Each.{object_in, gathered_from};
ghost use Rattle.mv_view.specs.ViewState.{AreSeen};
ghost use Rattle.mv_view.specs.Rules.{change_of};
ghost use Rattle.mv_view.specs.inside.Places.{IsListed};

use crate::kept::Kept;
use crate::places::kept_in;
use aw_body::Change;
use aw_lists::List;
use std::alloc::{AllocError, Global};

/// What a commit changes of one object.
fn change_at(
    alloc: Global,
    objects: &List<Option<Kept>>,
    object: u16,
) -> Result<Option<Change>, AllocError>
    requires { AreSeen objects.now }
    ensures { IfOk result (λ change. change ≡ option_and_then (change_of object) (object_in objects.now object)) }
{
    match kept_in(objects, object) {
        Some(kept) => kept.change(alloc, object),
        None => Ok(None),
    }
}

/// Adds what a commit changes of one object.
fn push_change(
    alloc: Global,
    changes: &mut Vec<Change>,
    objects: &List<Option<Kept>>,
    object: u16,
) -> Result<(), AllocError>
    requires { AreSeen objects.now }
    ensures { OnOk result (changes.new.items ≡ changes.old.items ++ option_to_list (option_and_then (change_of object) (object_in objects.now object))) }
{
    match change_at(alloc, objects, object) {
        Ok(Some(change)) => match changes.push(change) {
            Ok(()) => Ok(()),
            Err(_) => Err(AllocError),
        },
        Ok(None) => Ok(()),
        Err(error) => Err(error),
    }
}

/// What a commit changes, from the list of the objects that are owned.
pub fn gathered(
    alloc: Global,
    objects: &List<Option<Kept>>,
    owned: &Vec<u16>,
) -> Result<List<Change>, AllocError>
    requires { IsListed objects.now owned.now.items (vec_capacity owned.now) }
    ensures { IfOk result (λ changes. changes ≡ gathered_from change_of 0 objects.now) }
{
    let mut changes = Vec::new(alloc);
    for object in owned.as_slice() {
        match push_change(alloc, &mut changes, objects, *object) {
            Ok(()) => {}
            Err(error) => return Err(error),
        }
    }
    Ok(List::from_vec(changes))
}
