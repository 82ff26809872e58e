use aw_lists::{Coord, List};
use dml_exec::Fix;
use dml_loop::Target;

/// What an assignment writes to (docs/LANGUAGE.md, "Assignment").
#[derive(Drop)]
pub struct AssignedTo {
    /// What a cell becomes in it.
    pub target: Target,
    /// Its dimensions by their numbers, in order.
    pub dimensions: Coord,
    /// The values that are fixed, in the order written.
    pub fixes: List<Fix>,
}
