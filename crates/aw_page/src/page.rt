ghost use Rattle.std.specs.Prelude.{◌≡◌, ◌<◌, ◌↔◌, length, replicate, slice_get, slice_set, Some, IsTrue, IfOk};
ghost use Rattle.std.specs.List.{list_all};
ghost use Rattle.aw_cell.specs.declared.cell.Cell.TheVariants.{Na};
ghost use Rattle.aw_page.specs.Fitting.{IsPlain, is_na};
ghost use Rattle.aw_page.specs.inside.Plain.{plain_cell};

use aw_cell::{Cell, Number};
use std::alloc::{AllocError, Global};
use std::marker::Model;

/// A cell of a kind other than TEXT.
#[derive(Clone, Copy, Debug)]
enum Plain {
    Na,
    Num(Number),
    Int(i32),
    Bool(bool),
    Slot(u16),
}

impl PartialEq for Plain {
    ghost use Rattle.std.specs.Prelude.{◌≡◌};
    ghost use Rattle.aw_cell.specs.Cell.{same_cell};
    ghost use Rattle.aw_cell.specs.SameCell.{same_cell_partial_equivalence};
    ghost use Rattle.std.specs.Cmp.{on_per};
    ghost use Rattle.aw_page.specs.inside.Plain.{plain_cell};

    ghost eq = { λ one other. same_cell (plain_cell one) (plain_cell other) };

    ghost laws = { on_per plain_cell same_cell_partial_equivalence };

    fn eq(&self, other: &Plain) -> bool {
        match (self, other) {
            (Plain::Na, Plain::Na) => true,
            (Plain::Num(left), Plain::Num(right)) => left == right,
            (Plain::Int(left), Plain::Int(right)) => left == right,
            (Plain::Bool(left), Plain::Bool(right)) => left == right,
            (Plain::Slot(left), Plain::Slot(right)) => left == right,
            _ => false,
        }
    }
}

fn plain_of(cell: Cell) -> Plain
    requires { IsPlain cell }
    ensures { plain_cell result ≡ cell }
{
    match cell {
        Cell::Na => Plain::Na,
        Cell::Num(number) => Plain::Num(number),
        Cell::Int(whole) => Plain::Int(whole),
        Cell::Bool(truth) => Plain::Bool(truth),
        Cell::Slot(slot) => Plain::Slot(slot),
        Cell::Text(_) => unreachable!(),
    }
}

fn cell_of(plain: Plain) -> Cell
    ensures { result ≡ plain_cell plain }
{
    match plain {
        Plain::Na => Cell::Na,
        Plain::Num(number) => Cell::Num(number),
        Plain::Int(whole) => Cell::Int(whole),
        Plain::Bool(truth) => Cell::Bool(truth),
        Plain::Slot(slot) => Cell::Slot(slot),
    }
}

fn are_na(cells: &[Plain]) -> bool
    ensures { result ≡ list_all (λ plain. is_na (plain_cell plain)) cells.now }
{
    cells.iter().all(|cell| matches!(cell, Plain::Na))
}

/// 64 cells of kinds other than TEXT, each of which may be NA (docs/LANGUAGE.md, "Pages").
#[derive(Drop)]
pub struct Page {
    cells: [Plain; 64],
}

impl Model for Page {
    ghost use Rattle.std.specs.Prelude.{◌≡◌, List, map, length};
    ghost use Rattle.aw_cell.specs.declared.cell.Cell.{Cell};

    ghost Value = { List Cell };

    ghost use Rattle.aw_page.specs.inside.Plain.{plain_cell};

    ghost view = { λ page. map plain_cell page.cells };

    ghost invariant = { λ page. length page.cells ≡ 64 };
}

impl Page {
    /// A page of which every cell is NA. It takes no memory.
    pub fn new() -> Page
        ensures { result ≡ replicate 64 Na }
    {
        Page {
            cells: [Plain::Na; 64],
        }
    }

    /// The cell at a place from 0 to 63.
    pub fn get(&self, at: u8) -> Cell
        requires { at < 64 }
        ensures cell { slice_get self.now at ≡ Some result }
        ensures size { length self.now ≡ 64 }
    {
        cell_of(self.cells[at as usize])
    }

    /// Puts a cell in a place from 0 to 63, and leaves all others as they are.
    pub fn put(&mut self, at: u8, cell: Cell)
        requires place { at < 64 }
        requires plain { IsPlain cell }
        ensures cell { self.new ≡ slice_set self.old at cell }
        ensures size { length self.new ≡ 64 }
    {
        self.cells[at as usize] = plain_of(cell);
    }

    /// Whether every cell is NA.
    pub fn is_empty(&self) -> bool
        ensures { result ≡ list_all is_na self.now }
    {
        are_na(&self.cells)
    }

    /// An equal page. Its cells lie in the page itself, so that the allocator gives nothing here.
    pub fn copied(&self, _alloc: Global) -> Result<Page, AllocError>
        ensures { IfOk result (λ page. page ≡ self.now) }
    {
        let mut page = Page::new();
        page.cells.copy_from_slice(&self.cells);
        Ok(page)
    }
}

impl PartialEq for Page {
    ghost use Rattle.std.specs.Prelude.{◌≡◌, ◌↔◌, IsTrue};
    ghost use Rattle.std.specs.Cmp.Lexicographic.{pointwise, lists_per};
    ghost use Rattle.aw_cell.specs.Cell.{same_cell};
    ghost use Rattle.aw_cell.specs.SameCell.{same_cell_partial_equivalence};

    ghost eq = { pointwise same_cell };

    ghost laws = { lists_per same_cell_partial_equivalence };

    fn eq(&self, other: &Page) -> bool
        ensures same { result ≡ pointwise same_cell self.now other.now }
        ensures equal { IsTrue result ↔ (self.now ≡ other.now) }
    {
        self.cells[..] == other.cells[..]
    }
}

impl Eq for Page {
    ghost use Rattle.std.specs.Cmp.Lexicographic.{lists_equiv};
    ghost use Rattle.aw_cell.specs.SameCell.{same_cell_equivalence};

    ghost laws = { lists_equiv same_cell_equivalence };
}
