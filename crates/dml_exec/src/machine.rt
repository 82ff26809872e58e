ghost use Rattle.std.specs.Prelude.{◌≡◌, ◌<◌, ◌≤◌, ◌+◌, ◌^◌, ℕ, List, length, Some, IsSome, Option};
ghost use Rattle.aw_cell.specs.declared.cell.Cell.{Cell};
ghost use Rattle.dml_exec.specs.Meaning.{code_inputs, turn, meaning, pushed, on_one, on_two, named, name_of, on_branch, branched};
ghost use Rattle.dml_exec.specs.CodeRuns.{CanRun};
ghost use Rattle.dml_exec.specs.inside.MachineSteps.{CanTurn, MayTurn, stood};

use crate::code::Code;
use crate::op::Op;
use crate::operator::{Binary, Unary};
use crate::place::{Place, coordinate, slot_at};
use crate::stack::Stack;
use aw_cell::{Arith, Cell};
use aw_lists::Coord;

/// What code reads of a workspace.
pub trait Cells {
    /// The cell of an object at slots.
    ghost cell_at: { Self → ℕ → List ℕ → Cell };

    /// The name of a slot in a dimension, or NA.
    ghost name_at: { Self → ℕ → ℕ → Cell };

    /// Whether an object may be asked for its cell at slots.
    ghost may_read: { Self → ℕ → List ℕ → Type 0 };

    /// Whether a dimension may be asked for the name of a slot.
    ghost may_name: { Self → ℕ → ℕ → Type 0 };

    /// The cell of an object at a coordinate.
    fn cell(&self, object: u16, at: &Coord) -> Cell
        requires { may_read self.now object at.now }
        ensures { result ≡ cell_at self.now object at.now };

    /// The name of the value with a slot in a dimension, as a TEXT, or NA where there is none.
    fn name(&self, dimension: u16, slot: u16) -> Cell
        requires { may_name self.now dimension slot }
        ensures { result ≡ name_at self.now dimension slot };
}

fn put(cell: Cell, next: usize, stack: &mut Stack) -> Result<usize, Arith>
    requires { CanTurn stack.old.room (pushed next stack.old.cells (Some cell)) }
    ensures turned { pushed next stack.old.cells (Some cell) ≡ Some (stood stack.new.cells result) }
    ensures room { stack.new.room ≡ stack.old.room }
{
    stack.push(cell);
    Ok(next)
}

fn one(operator: Unary, next: usize, stack: &mut Stack) -> Result<usize, Arith>
    requires { CanTurn stack.old.room (on_one operator next stack.old.cells) }
    ensures turned { on_one operator next stack.old.cells ≡ Some (stood stack.new.cells result) }
    ensures room { stack.new.room ≡ stack.old.room }
{
    let cell = stack.pop();
    let answer = operator.of(cell)?;
    stack.push(answer);
    Ok(next)
}

fn two(operator: Binary, next: usize, stack: &mut Stack) -> Result<usize, Arith>
    requires { CanTurn stack.old.room (on_two operator next stack.old.cells) }
    ensures turned { on_two operator next stack.old.cells ≡ Some (stood stack.new.cells result) }
    ensures room { stack.new.room ≡ stack.old.room }
{
    let right = stack.pop();
    let left = stack.pop();
    let answer = operator.of(left, right)?;
    stack.push(answer);
    Ok(next)
}

fn name_of<C: Cells>(cells: &C, dimension: u16, cell: Cell) -> Cell
    requires some { IsSome (name_of (C.name_at cells.now dimension) cell) }
    requires asks { (slot : ℕ) → C.may_name cells.now dimension slot }
    ensures { name_of (C.name_at cells.now dimension) cell ≡ Some result }
{
    match cell {
        Cell::Slot(slot) => cells.name(dimension, slot),
        _ => Cell::Na,
    }
}

fn name<C: Cells>(cells: &C, dimension: u16, next: usize, stack: &mut Stack) -> Result<usize, Arith>
    requires turns { CanTurn stack.old.room (named (C.name_at cells.now dimension) next stack.old.cells) }
    requires asks { (slot : ℕ) → C.may_name cells.now dimension slot }
    ensures turned { named (C.name_at cells.now dimension) next stack.old.cells ≡ Some (stood stack.new.cells result) }
    ensures room { stack.new.room ≡ stack.old.room }
{
    let cell = stack.pop();
    stack.push(name_of(cells, dimension, cell));
    Ok(next)
}

fn branch(cell: Cell, yes: usize, no: u32, na: u32) -> usize
    requires { IsSome (branched yes no na cell) }
    ensures { branched yes no na cell ≡ Some result }
{
    match cell {
        Cell::Bool(true) => yes,
        Cell::Bool(false) => no as usize,
        _ => na as usize,
    }
}

fn fork(yes: usize, no: u32, na: u32, stack: &mut Stack) -> Result<usize, Arith>
    requires { CanTurn stack.old.room (on_branch yes no na stack.old.cells) }
    ensures turned { on_branch yes no na stack.old.cells ≡ Some (stood stack.new.cells result) }
    ensures room { stack.new.room ≡ stack.old.room }
{
    let cell = stack.pop();
    Ok(branch(cell, yes, no, na))
}

/// Takes the op at a place, and answers the place of the next one.
fn step<C: Cells>(
    op: &Op,
    at: usize,
    cells: &C,
    place: &[(u16, u16)],
    fixed: &[u16],
    locals: &[Cell],
    stack: &mut Stack,
) -> Result<usize, Arith>
    requires small { at + 1 < 2 ^ 64 }
    requires turns { CanTurn stack.old.room (turn (code_inputs (C.cell_at cells.now) (C.name_at cells.now) place.now fixed.now locals.now) at op.now stack.old.cells) }
    requires asks { MayTurn (C.may_read cells.now) (C.may_name cells.now) op.now }
    ensures turned { turn (code_inputs (C.cell_at cells.now) (C.name_at cells.now) place.now fixed.now locals.now) at op.now stack.old.cells ≡ Some (stood stack.new.cells result) }
    ensures room { stack.new.room ≡ stack.old.room }
{
    let next = at + 1;
    match op {
        Op::Push { cell, .. } => put(*cell, next, stack),
        Op::Local(number) => put(locals[usize::from(*number)], next, stack),
        Op::Load { object, axes } => {
            let slots = coordinate(place, fixed, axes.as_slice());
            put(cells.cell(*object, &slots), next, stack)
        }
        Op::Name { dimension } => {
            let slot = slot_at(place, *dimension);
            put(cells.name(*dimension, slot), next, stack)
        }
        Op::NameOf { dimension } => name(cells, *dimension, next, stack),
        Op::Add => two(Binary::Add, next, stack),
        Op::Sub => two(Binary::Sub, next, stack),
        Op::Mul => two(Binary::Mul, next, stack),
        Op::Div => two(Binary::Div, next, stack),
        Op::Neg => one(Unary::Neg, next, stack),
        Op::Abs => one(Unary::Abs, next, stack),
        Op::Min => two(Binary::Min, next, stack),
        Op::Max => two(Binary::Max, next, stack),
        Op::NaFill => two(Binary::NaFill, next, stack),
        Op::Convert(kind) => one(Unary::Convert(*kind), next, stack),
        Op::Compare(order) => two(Binary::Compare(*order), next, stack),
        Op::And => two(Binary::And, next, stack),
        Op::Or => two(Binary::Or, next, stack),
        Op::Not => one(Unary::Not, next, stack),
        Op::Branch { no, na } => fork(next, *no, *na, stack),
        Op::Jump(to) => Ok(*to as usize),
    }
}

/// Runs code: the cell that it gives, or the first refusal of its arithmetic. It takes no memory.
/// `fixed` has the slot of each fix, and `at` one for each free dimension; the stack was reserved for
/// the code (docs/ARCHITECTURE.md, "Code of expressions").
pub fn run<C: Cells>(
    code: &Code,
    cells: &C,
    at: &Place,
    fixed: &[u16],
    locals: &[Cell],
    stack: &mut Stack,
) -> Result<Cell, Arith>
    requires room { code.now.deepest ≤ stack.old.room }
    requires fits { CanRun code.now (code_inputs (C.cell_at cells.now) (C.name_at cells.now) at.now fixed.now locals.now) (C.may_read cells.now) (C.may_name cells.now) }
    ensures value { meaning (code_inputs (C.cell_at cells.now) (C.name_at cells.now) at.now fixed.now locals.now) code.now.ops ≡ Some result }
    ensures room { stack.new.room ≡ stack.old.room }
{
    stack.clear();
    let ops = code.ops.as_slice();
    let mut next = 0;
    while next < ops.len() {
        next = step(&ops[next], next, cells, at.as_slice(), fixed, locals, stack)?;
    }
    Ok(stack.pop())
}
