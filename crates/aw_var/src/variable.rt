ghost use Rattle.std.specs.Prelude.{◌≡◌, ◌≤◌, ◌<◌, ◌↔◌, [], length, IsTrue, IsNone, IfSome, IfOk, OnOk, OnErr};
ghost use Rattle.std.specs.Map.Iter.{GivesInOrder};
ghost use Rattle.aw_lists.specs.Coord.{packed, AreSlots};
ghost use Rattle.aw_page.specs.Fitting.{is_of_kind};
ghost use Rattle.aw_var.specs.CellMap.{KeyedCell, cell_at, set_at};
ghost use Rattle.aw_var.specs.CellPatch.{difference};
ghost use Rattle.aw_var.specs.Pages.{page_count, HasNoPage, ArePageCells};
ghost use Rattle.aw_var.specs.Variable.{IsVariable};

use crate::fault::VarFault;
use crate::going::CellIter;
use crate::numbered::Numbered;
use crate::patching::keep_range;
use aw_cell::{Cell, Kind};
use aw_lists::{Coord, List};
use aw_page::Page;
use std::alloc::{AllocError, Global};
use std::marker::Model;

/// Which cells a variable changes: each key with its new cell, or NA where the cell is taken away; the
/// keys rise (docs/SHARING.md, "Patches").
pub type Patch = List<(Coord, Cell)>;

/// The most pages that the cells of a variable lie on where they are set one by one.
const MOST_PAGES: usize = 65_536;

/// The cells of a variable or a relation: a finite map from coordinates of one length to cells of one
/// kind that aren't NA (docs/LANGUAGE.md, "Variables"). It keeps its allocator.
#[derive(Drop)]
pub struct Variable {
    slots: u8,
    cells: Numbered,
}

impl Model for Variable {
    ghost use Rattle.aw_var.specs.Variable.{Contents};

    ghost Value = { Contents };

    ghost use Rattle.aw_var.specs.inside.Unpacking.{with_coords, AreNumbersOf};

    ghost view = { λ v. record { slots = v.slots; kind = v.cells.kind; cells = with_coords v.slots v.cells.cells } };

    ghost invariant = { λ v. AreNumbersOf v.slots v.cells.cells };
}

/// The packed number of a key.
fn number_of(at: &Coord) -> u128
    ensures value { result ≡ packed at.now }
    ensures slots { AreSlots at.now }
{
    keep_range(at.slots(), at.pack())
}

impl Variable {
    /// A variable of which every cell is NA, with keys of 0 to 6 slots. It takes no memory.
    pub fn new(alloc: Global, slots: u8, kind: Kind) -> Variable
        requires { slots ≤ 6 }
        ensures { result ≡ record { slots = slots; kind = kind; cells = [] } }
    {
        Variable {
            slots,
            cells: Numbered::new(alloc, kind),
        }
    }

    /// How many slots its keys have, 0 to 6.
    pub fn slots(&self) -> u8
        ensures { result ≡ self.now.slots }
    {
        self.slots
    }

    /// The kind of its cells.
    pub fn kind(&self) -> Kind
        ensures { result ≡ self.now.kind }
    {
        self.cells.kind()
    }

    /// Its cell at a key of its number of slots, NA where none was set. It takes no memory.
    pub fn get(&self, at: &Coord) -> Cell
        requires { length at.now ≡ self.now.slots }
        ensures { result ≡ cell_at self.now.cells at.now }
    {
        self.cells.get(number_of(at))
    }

    /// Sets the cell at a key; NA takes it away. `Full` where the cells would then lie on more than
    /// 65,536 pages, which are the keys' packed numbers divided by 64. After an error all is as it was.
    pub fn set(&mut self, at: &Coord, cell: Cell) -> Result<(), VarFault>
        requires slots { length at.now ≡ self.old.slots }
        requires kind { IsTrue (is_of_kind self.old.kind cell) }
        ensures ok { OnOk result (self.new ≡ record self.old { cells = set_at self.old.cells at.now cell }) }
        ensures full { (result ≡ Err VarFault.Full) ↔ (65536 < page_count (set_at self.old.cells at.now cell)) }
        ensures err { OnErr result (self.new ≡ self.old) }
    {
        if self.is_full_for(at, &cell) {
            return Err(VarFault::Full);
        }
        match self.put(at, cell) {
            Ok(()) => Ok(()),
            Err(AllocError) => Err(VarFault::NoMemory),
        }
    }

    /// Whether the cells would be on too many pages if one were set.
    fn is_full_for(&self, at: &Coord, cell: &Cell) -> bool
        requires slots { length at.now ≡ self.now.slots }
        requires kind { IsTrue (is_of_kind self.now.kind cell.now) }
        ensures { IsTrue result ↔ (MOST_PAGES < page_count (set_at self.now.cells at.now cell.now)) }
    {
        self.cells.needs_more(MOST_PAGES, number_of(at), cell)
    }

    /// Sets the cell at a key, on any number of pages; NA takes it away. Want of memory leaves all as it
    /// was.
    pub fn put(&mut self, at: &Coord, cell: Cell) -> Result<(), AllocError>
        requires slots { length at.now ≡ self.old.slots }
        requires kind { IsTrue (is_of_kind self.old.kind cell) }
        ensures ok { OnOk result (self.new ≡ record self.old { cells = set_at self.old.cells at.now cell }) }
        ensures err { OnErr result (self.new ≡ self.old) }
    {
        self.cells.put(number_of(at), cell)
    }

    /// What makes this variable of an older one with keys as long and cells of its kind: the keys at
    /// which they differ, in rising order, with the cells here, NA where only the older one has a cell.
    pub fn patch_since(&self, older: &Variable) -> Result<Patch, AllocError>
        requires slots { self.now.slots ≡ older.now.slots }
        requires kind { self.now.kind ≡ older.now.kind }
        ensures { IfOk result (λ patch. patch ≡ difference older.now.cells self.now.cells) }
    {
        self.cells.patch_since(&older.cells, self.slots)
    }

    /// Whether every cell is NA. What holds of every variable is told here too.
    pub fn is_empty(&self) -> bool
        ensures empty { IsTrue result ↔ (self.now.cells ≡ []) }
        ensures valid { IsVariable self.now }
    {
        self.cells.is_empty()
    }

    /// How many of its cells aren't NA. It takes no memory, and one step.
    pub fn len(&self) -> u128
        ensures { result ≡ length self.now.cells }
    {
        self.cells.len()
    }

    /// Its keys in rising order, each with its cell, which isn't NA. It takes no memory.
    pub fn iter(&self) -> CellIter<'_>
        ensures rest { result ≡ self.now.cells }
        ensures runs { GivesInOrder KeyedCell }
    {
        self.cells.iter(self.slots)
    }

    /// The 64 cells at the keys whose packed numbers divided by 64 are this number, in their order, NA
    /// where a number is no key's; `None` where all are NA, and for TEXT. It takes no memory.
    pub fn page(&self, number: u128) -> Option<&Page>
        ensures none { IsNone result ↔ HasNoPage self.now.kind self.now.cells number }
        ensures cells { IfSome result (λ page. ArePageCells self.now.cells number page.now) }
    {
        self.cells.page(number)
    }

    /// An equal variable.
    pub fn copied(&self) -> Result<Variable, AllocError>
        ensures { IfOk result (λ copy. copy ≡ self.now) }
    {
        Ok(Variable {
            slots: self.slots,
            cells: self.cells.copied()?,
        })
    }
}

impl PartialEq for Variable {
    ghost use Rattle.std.specs.Prelude.{◌≡◌, ◌↔◌, IsTrue};
    ghost use Rattle.aw_var.specs.SameContents.{same_contents, same_contents_partial_equivalence};

    ghost eq = { same_contents };

    ghost laws = { same_contents_partial_equivalence };

    fn eq(&self, other: &Variable) -> bool
        ensures same { result ≡ same_contents self.now other.now }
        ensures equal { IsTrue result ↔ (self.now ≡ other.now) }
    {
        self.slots == other.slots && self.cells.is_same(&other.cells)
    }
}

impl Eq for Variable {
    ghost use Rattle.aw_var.specs.SameContents.{same_contents_equivalence};

    ghost laws = { same_contents_equivalence };
}
