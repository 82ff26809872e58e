ghost use Rattle.std.specs.Prelude.{◌≡◌, IfOk};
ghost use Rattle.ses_step.specs.Commands as spec;
ghost use Rattle.ses_step.specs.Meant.{runs};

use aw_cell::Cell;
use aw_dim::Dimension;
use aw_lists::{Coord, List};
use dml_tree::{Mode, Statement};
use ses_report::Refusal;
use std::alloc::{AllocError, Global};

/// What a statement of a session comes to (docs/LANGUAGE.md, "Statements"). Objects stand by their
/// numbers, in the order written; expressions and values were evaluated before.
#[derive(Drop)]
pub enum Command {
    /// `AW ATTACH`
    Attach(Mode),
    /// `AW DETACH`
    Detach,
    /// `ACQUIRE`: objects that keep the bodies that the session has, objects that get their latest
    /// generation, and objects that are only to be no newer.
    Acquire {
        keep: List<u16>,
        fresh: List<u16>,
        same: List<u16>,
    },
    /// `RESYNC`
    Resync(List<u16>),
    /// `RELEASE`
    Release(List<u16>),
    /// `REVERT`, of all objects where there is none in the list.
    Revert(List<u16>),
    /// `UPDATE`, of all that the session owns where there is none in the list.
    Update(List<u16>),
    /// `COMMIT`
    Commit,
    /// An assignment: these cells of a variable or a relation, which it can hold.
    Write {
        object: u16,
        cells: List<(Coord, Cell)>,
    },
    /// `SHOW`, of this cell.
    Show(Cell),
    /// `MAINTAIN`: the values that a dimension has from now on.
    Maintain {
        object: u16,
        values: Dimension,
    },
}

/// What a line asks of its session.
#[derive(Drop)]
pub enum Asked {
    /// To run this.
    Runs(Command),
    /// Nothing: it is refused so.
    Refused(Refusal),
}

/// The lists of an ACQUIRE, of these lengths, one behind the other.
#[tactic(auto, using(crate::proofs::Parts::kept, crate::proofs::Parts::renewed, crate::proofs::Parts::watched))]
fn acquire_of(
    alloc: Global,
    keep: usize,
    fresh: usize,
    objects: &[u16],
) -> Result<Command, AllocError>
    ensures { IfOk result (λ own. own ≡ spec.acquire_of keep fresh objects.now) }
{
    let (keep, others) = objects.split_at(keep.min(objects.len()));
    let (fresh, same) = others.split_at(fresh.min(others.len()));
    Ok(Command::Acquire {
        keep: List::from_slice(alloc, keep)?,
        fresh: List::from_slice(alloc, fresh)?,
        same: List::from_slice(alloc, same)?,
    })
}

/// The command that a statement is which shares the workspace and names these objects, or `None` for
/// any other statement. The only error is want of memory.
pub fn command_of(
    alloc: Global,
    statement: &Statement,
    objects: &[u16],
) -> Result<Option<Command>, AllocError>
    ensures { IfOk result (λ own. own ≡ spec.command_of statement.now objects.now) }
{
    Ok(match statement {
        Statement::Attach(mode) => Some(Command::Attach(*mode)),
        Statement::Detach => Some(Command::Detach),
        Statement::Acquire(keep, fresh, _) => {
            Some(acquire_of(alloc, keep.len(), fresh.len(), objects)?)
        }
        Statement::Resync(_) => Some(Command::Resync(List::from_slice(alloc, objects)?)),
        Statement::Release(_) => Some(Command::Release(List::from_slice(alloc, objects)?)),
        Statement::Revert(_) => Some(Command::Revert(List::from_slice(alloc, objects)?)),
        Statement::Update(_) => Some(Command::Update(List::from_slice(alloc, objects)?)),
        Statement::Commit => Some(Command::Commit),
        _ => None,
    })
}

/// What is asked by a statement that shares the workspace. One that doesn't run yet is refused with 1.
pub fn runs(command: Option<Command>) -> Asked
    ensures { result ≡ runs command }
{
    match command {
        Some(command) => Asked::Runs(command),
        None => Asked::Refused(Refusal::no_form()),
    }
}
