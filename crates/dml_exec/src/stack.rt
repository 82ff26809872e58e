ghost use Rattle.std.specs.Prelude.{◌≡◌, ◌<◌, ◌≤◌, ◌∷◌, [], length, IfOk, OnOk};

use crate::code::Code;
use aw_cell::Cell;
use std::alloc::{AllocError, Global};
use std::marker::Model;

/// The memory of the machine: room for so many cells, and the cells that are on it.
#[derive(Drop)]
pub struct Stack {
    cells: Vec<Cell>,
    height: usize,
}

impl Model for Stack {
    ghost use Rattle.std.specs.Prelude.{◌≤◌, length, reverse, take};
    ghost use Rattle.dml_exec.specs.StackView.{StackView};

    ghost Value = { StackView };

    ghost view = { λ stack. record { cells = reverse (take stack.height stack.cells.items); room = length stack.cells.items } };

    ghost invariant = { λ stack. stack.height ≤ length stack.cells.items };
}

impl Stack {
    /// A stack without room, which takes no memory yet.
    pub fn new(alloc: Global) -> Stack
        ensures cells { result.cells ≡ [] }
        ensures room { result.room ≡ 0 }
    {
        Stack {
            cells: Vec::new(alloc),
            height: 0,
        }
    }

    /// Makes room for a run of this code. The only error is want of memory.
    pub fn reserve(&mut self, code: &Code) -> Result<(), AllocError>
        ensures room { OnOk result (code.now.deepest ≤ self.new.room) }
        ensures more { self.old.room ≤ self.new.room }
    {
        if self.cells.len() < code.deepest {
            self.cells.resize(code.deepest, Cell::Na)?;
        }
        Ok(())
    }

    /// Lets all cells go, and keeps the room.
    pub fn clear(&mut self)
        ensures cells { self.new.cells ≡ [] }
        ensures room { self.new.room ≡ self.old.room }
    {
        self.height = 0;
    }

    /// Puts a cell on.
    pub fn push(&mut self, cell: Cell)
        requires { length self.old.cells < self.old.room }
        ensures cells { self.new.cells ≡ cell ∷ self.old.cells }
        ensures room { self.new.room ≡ self.old.room }
    {
        self.cells[self.height] = cell;
        self.height += 1;
    }

    /// Takes the last cell off.
    pub fn pop(&mut self) -> Cell
        requires { 0 < length self.old.cells }
        ensures cells { self.old.cells ≡ result ∷ self.new.cells }
        ensures room { self.new.room ≡ self.old.room }
        ensures free { length self.new.cells < self.new.room }
    {
        self.height -= 1;
        self.cells[self.height]
    }
}
