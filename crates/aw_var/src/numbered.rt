ghost use Rattle.std.specs.Prelude.{◌≡◌, ◌<◌, ◌≤◌, ◌≢◌, ◌↔◌, ◌^◌, ◌/◌, ◌*◌, ◌+◌, [], length, IsTrue, IsNone, IfSome, IfOk, OnOk, OnErr, unwrap_or, slice_index_or};
ghost use Rattle.aw_page.specs.Fitting.{is_of_kind};
ghost use Rattle.aw_cell.specs.declared.cell.Cell.TheVariants.{Na};
ghost use Rattle.std.specs.BTreeMap.{IsUnchanged};
ghost use Rattle.aw_var.specs.inside.NumberedMap.{cell_of, set_of, difference_of, IsNumberedMap};
ghost use Rattle.aw_var.specs.inside.Unpacking.{with_coords, AreNumbersOf};
ghost use Rattle.aw_var.specs.inside.Sheets.{PutsCell, number_pages, AreSheets, sheet_at, weight};
ghost use Rattle.aw_var.specs.inside.Differences.{cell_on};
ghost use Rattle.aw_var.specs.inside.NumberedPages.{HasNoSheet, AreCellsOn};

use crate::going::CellIter;
use crate::patching::{lesser, push_changes};
use crate::sheet::Sheet;
use crate::walk::Walk;
use aw_cell::{Cell, Kind};
use aw_lists::{Coord, List};
use aw_page::Page;
use std::alloc::{AllocError, Global};
use std::collections::BTreeMap;
use std::marker::Model;

/// A finite map from packed keys to cells of one kind that aren't NA, in sheets of 64 by `number / 64`.
#[derive(Drop)]
pub struct Numbered {
    kind: Kind,
    sheets: BTreeMap<u128, Sheet>,
    count: u128,
    alloc: Global,
}

impl Model for Numbered {
    ghost use Rattle.aw_var.specs.inside.NumberedMap.{NumberedMap};

    ghost Value = { NumberedMap };

    ghost use Rattle.aw_var.specs.inside.Sheets.{all_numbered, AreCounted};

    ghost view = { λ n. record { kind = n.kind; cells = all_numbered n.sheets.entries } };

    ghost invariant = { λ n. AreCounted n.kind n.sheets.entries n.count };
}

/// Takes the cell at a place of a page away, and gives it.
fn take_cell(
    sheets: &mut BTreeMap<u128, Sheet>,
    alloc: Global,
    kind: Kind,
    page: u128,
    at: u8,
) -> Result<Cell, AllocError>
    requires place { at < 64 }
    requires sheets { AreSheets kind sheets.old.entries }
    ensures ok { OnOk result (PutsCell kind sheets.old.entries sheets.new.entries page at Na) }
    ensures before { IfOk result (λ before. before ≡ cell_on (sheet_at sheets.old.entries page) at) }
    ensures err { OnErr result (IsUnchanged sheets.old sheets.new) }
{
    let Some(sheet) = sheets.get_mut(&page) else {
        return Ok(Cell::Na);
    };
    let before = sheet.get(at);
    sheet.put(alloc, at, Cell::Na)?;
    if sheet.is_empty() {
        sheets.remove(&page);
    }
    Ok(before)
}

/// Puts a cell that isn't NA in a place of a page, on a new sheet where the page has none, and gives the
/// cell that was there.
fn put_cell(
    sheets: &mut BTreeMap<u128, Sheet>,
    alloc: Global,
    kind: Kind,
    page: u128,
    at: u8,
    cell: Cell,
) -> Result<Cell, AllocError>
    requires place { at < 64 }
    requires present { cell ≢ Na }
    requires fitting { IsTrue (is_of_kind kind cell) }
    requires sheets { AreSheets kind sheets.old.entries }
    ensures ok { OnOk result (PutsCell kind sheets.old.entries sheets.new.entries page at cell) }
    ensures before { IfOk result (λ before. before ≡ cell_on (sheet_at sheets.old.entries page) at) }
    ensures err { OnErr result (IsUnchanged sheets.old sheets.new) }
{
    if let Some(sheet) = sheets.get_mut(&page) {
        let before = sheet.get(at);
        sheet.put(alloc, at, cell)?;
        return Ok(before);
    }
    let mut sheet = Sheet::new(alloc, kind)?;
    sheet.put(alloc, at, cell)?;
    sheets.insert(page, sheet)?;
    Ok(Cell::Na)
}

/// Puts a cell in a place of a page, and gives the cell that was there.
fn change(
    sheets: &mut BTreeMap<u128, Sheet>,
    alloc: Global,
    kind: Kind,
    page: u128,
    at: u8,
    cell: Cell,
) -> Result<Cell, AllocError>
    requires place { at < 64 }
    requires fitting { IsTrue (is_of_kind kind cell) }
    requires sheets { AreSheets kind sheets.old.entries }
    ensures ok { OnOk result (PutsCell kind sheets.old.entries sheets.new.entries page at cell) }
    ensures before { IfOk result (λ before. before ≡ cell_on (sheet_at sheets.old.entries page) at) }
    ensures err { OnErr result (IsUnchanged sheets.old sheets.new) }
{
    if cell == Cell::Na {
        take_cell(sheets, alloc, kind, page, at)
    } else {
        put_cell(sheets, alloc, kind, page, at, cell)
    }
}

/// How many cells there are after one on so many pages is changed.
fn recounted(count: u128, pages: usize, before: &Cell, after: &Cell) -> u128
    requires few { count ≤ 64 * pages }
    requires some { weight before.now ≤ count }
    ensures { result + weight before.now ≡ count + weight after.now }
{
    match (*before == Cell::Na, *after == Cell::Na) {
        (true, false) => count + 1,
        (false, true) => count - 1,
        _ => count,
    }
}

impl Numbered {
    /// A map without cells.
    pub fn new(alloc: Global, kind: Kind) -> Numbered
        ensures { result ≡ record { kind = kind; cells = [] } }
    {
        Numbered {
            kind,
            sheets: BTreeMap::new(alloc),
            count: 0,
            alloc,
        }
    }

    /// Of which kind the cells are.
    pub fn kind(&self) -> Kind
        ensures { result ≡ self.now.kind }
    {
        self.kind
    }

    /// The cell at a number.
    pub fn get(&self, number: u128) -> Cell
        ensures { result ≡ cell_of self.now.cells number }
    {
        match self.sheets.get(&(number / 64)) {
            Some(sheet) => sheet.get((number % 64) as u8),
            None => Cell::Na,
        }
    }

    /// Sets the cell at a number. Want of memory leaves all as it was.
    pub fn put(&mut self, number: u128, cell: Cell) -> Result<(), AllocError>
        requires { IsTrue (is_of_kind self.old.kind cell) }
        ensures ok { OnOk result (self.new ≡ record self.old { cells = set_of self.old.cells number cell }) }
        ensures err { OnErr result (self.new ≡ self.old) }
    {
        let (page, at) = (number / 64, (number % 64) as u8);
        let pages = self.sheets.len();
        let before = change(&mut self.sheets, self.alloc, self.kind, page, at, cell)?;
        self.count = recounted(self.count, pages, &before, &cell);
        Ok(())
    }

    /// How many cells it has.
    pub fn len(&self) -> u128
        ensures { result ≡ length self.now.cells }
    {
        self.count
    }

    /// Its cells in order, by the coordinates with so many slots that their numbers stand for.
    pub fn iter(&self, slots: u8) -> CellIter<'_>
        requires { AreNumbersOf slots self.now.cells }
        ensures { result ≡ with_coords slots self.now.cells }
    {
        CellIter::new(slots, &self.sheets)
    }

    /// The page with a number, where the cells aren't TEXT and some of them are on it.
    pub fn page(&self, number: u128) -> Option<&Page>
        ensures none { IsNone result ↔ HasNoSheet self.now.kind self.now.cells number }
        ensures cells { IfSome result (λ page. AreCellsOn self.now.cells number page.now) }
    {
        match self.sheets.get(&number) {
            Some(sheet) => sheet.plain(),
            None => None,
        }
    }

    /// An equal map, which shares its sheets.
    pub fn copied(&self) -> Result<Numbered, AllocError>
        ensures { IfOk result (λ copy. copy ≡ self.now) }
    {
        Ok(Numbered {
            kind: self.kind,
            sheets: self.sheets.clone()?,
            count: self.count,
            alloc: self.alloc,
        })
    }

    /// Whether it has no cell.
    pub fn is_empty(&self) -> bool
        ensures empty { IsTrue result ↔ (self.now.cells ≡ []) }
        ensures valid { IsNumberedMap self.now }
    {
        self.sheets.is_empty()
    }

    /// Whether the cells would be on more than so many pages if one were set.
    pub fn needs_more(&self, most: usize, number: u128, cell: &Cell) -> bool
        requires { IsTrue (is_of_kind self.now.kind cell.now) }
        ensures { IsTrue result ↔ (most < number_pages (set_of self.now.cells number cell.now)) }
    {
        self.sheets.len() >= most && self.pages_with(number, cell) > most
    }

    /// How many pages the cells would be on if one were set.
    fn pages_with(&self, number: u128, cell: &Cell) -> usize
        requires { IsTrue (is_of_kind self.now.kind cell.now) }
        ensures pages { result ≡ number_pages (set_of self.now.cells number cell.now) }
    {
        let count = self.sheets.len();
        match self.sheets.get(&(number / 64)) {
            Some(sheet) if *cell == Cell::Na && sheet.is_blank_without((number % 64) as u8) => {
                count - 1
            }
            Some(_) => count,
            None if *cell == Cell::Na => count,
            None => count + 1,
        }
    }

    /// What makes this map of an older one of its kind, with keys of so many slots in place of their
    /// numbers.
    pub fn patch_since(
        &self,
        older: &Numbered,
        slots: u8,
    ) -> Result<List<(Coord, Cell)>, AllocError>
        requires kind { self.now.kind ≡ older.now.kind }
        requires numbers { AreNumbersOf slots self.now.cells }
        requires older_numbers { AreNumbersOf slots older.now.cells }
        ensures { IfOk result (λ patch. patch ≡ with_coords slots (difference_of older.now.cells self.now.cells)) }
    {
        let mut patch = Vec::new(self.alloc);
        let mut ours = Walk::new(&self.sheets);
        let mut theirs = Walk::new(&older.sheets);
        'pages: while let Some(page) = lesser(ours.page(), theirs.page()) {
            let now = ours.take_at(page);
            let before = theirs.take_at(page);
            push_changes(&mut patch, slots, page, before, now)?;
        }
        Ok(List::from_vec(patch))
    }

    /// Whether two maps are of one kind with the same cells.
    pub fn is_same(&self, other: &Numbered) -> bool
        ensures { IsTrue result ↔ (self.now ≡ other.now) }
    {
        self.kind == other.kind && self.sheets == other.sheets
    }
}
