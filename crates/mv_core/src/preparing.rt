//! What a commit is answered, and what is to be done for it.

ghost use Rattle.std.specs.Prelude.{IfOk};
ghost use Rattle.mv_core.specs.declared.entry.Entry.TheVariants as asked;
ghost use Rattle.mv_core.specs.Objects.{AreObjectsOf};
ghost use Rattle.mv_core.specs.Prepared.{IsReadyFor};

use crate::changing::{commit_block, made};
use crate::entry::Reply;
use crate::object::Object;
use crate::ready::{Ready, Todo};
use aw_body::{Body, Change};
use aw_lists::List;
use aw_schema::Def;
use std::alloc::{AllocError, Global};

/// Prepares a `Commit`.
pub fn commit(
    alloc: Global,
    definitions: &[Def],
    objects: &[Option<Object<Body>>],
    who: u32,
    changes: &[Change],
    leave: &[u16],
) -> Result<Ready, AllocError>
    requires { AreObjectsOf definitions.now objects.now }
    ensures { IfOk result (IsReadyFor definitions.now objects.now (asked.Commit who changes.now leave.now)) }
{
    match commit_block(definitions, objects, who, changes, leave) {
        Some(blocked) => Ok(Ready::new(blocked, Todo::Nothing)),
        None => {
            let made = List::from_vec(made(alloc, objects, changes)?);
            let leave = List::from_slice(alloc, leave)?;
            Ok(Ready::new(Reply::Committed, Todo::Renew { who, made, leave }))
        }
    }
}
