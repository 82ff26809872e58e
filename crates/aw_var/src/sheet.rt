ghost use Rattle.std.specs.Prelude.{◌≡◌, ◌<◌, ◌↔◌, length, replicate, slice_get, slice_index_or, slice_set, Some, IsTrue, IfSome, IfOk, IsNone, OnOk, OnErr};
ghost use Rattle.std.specs.Arc.{arc_value};
ghost use Rattle.std.specs.List.{list_all};
ghost use Rattle.aw_cell.specs.declared.cell.Cell.TheVariants.{Na};
ghost use Rattle.aw_cell.specs.Cell.{same_cell};
ghost use Rattle.aw_page.specs.Fitting.{is_na, is_of_kind, IsPlain, IsTextOrNa};
ghost use Rattle.aw_var.specs.inside.Sheets.{is_text_kind};
ghost use Rattle.aw_var.specs.inside.Shared.{IsHeldBy};
ghost use Rattle.aw_var.specs.inside.Walks.{IsFirstUsed};
ghost use Rattle.aw_var.specs.inside.Differences.{cell_on};
ghost use Rattle.std.specs.Option.{option_copied};

use aw_cell::{Cell, Kind};
use aw_page::{Page, TextPage};
use std::alloc::{AllocError, Global};
use std::marker::Model;
use std::sync::Arc;

/// One page, which copies share until one of them changes it.
#[derive(Drop)]
enum Shared {
    Plain(Arc<Page>),
    Text(Arc<TextPage>),
}

/// The 64 cells of one page, all of kinds other than TEXT or all TEXT.
#[derive(Drop)]
pub struct Sheet {
    page: Shared,
}

impl Model for Sheet {
    ghost use Rattle.aw_var.specs.inside.Sheets.{SheetCells};

    ghost Value = { SheetCells };

    ghost use Rattle.aw_var.specs.inside.Shared.{shared_cells};

    ghost view = { λ sheet. shared_cells sheet.page };
}

fn put_plain(page: &mut Arc<Page>, alloc: Global, at: u8, cell: Cell) -> Result<(), AllocError>
    requires place { at < 64 }
    requires plain { IsPlain cell }
    ensures ok { OnOk result (arc_value page.new ≡ slice_set (arc_value page.old) at cell) }
    ensures err { OnErr result (arc_value page.new ≡ arc_value page.old) }
{
    if let Some(page) = Arc::get_mut(page) {
        page.put(at, cell);
        return Ok(());
    }
    let mut changed = page.copied(alloc)?;
    changed.put(at, cell);
    *page = Arc::new(alloc, changed)?;
    Ok(())
}

fn put_text(page: &mut Arc<TextPage>, alloc: Global, at: u8, cell: Cell) -> Result<(), AllocError>
    requires place { at < 64 }
    requires fitting { IsTextOrNa cell }
    ensures ok { OnOk result (arc_value page.new ≡ slice_set (arc_value page.old) at cell) }
    ensures err { OnErr result (arc_value page.new ≡ arc_value page.old) }
{
    if let Some(page) = Arc::get_mut(page) {
        page.put(at, cell);
        return Ok(());
    }
    let mut changed = page.copied(alloc)?;
    changed.put(at, cell);
    *page = Arc::new(alloc, changed)?;
    Ok(())
}

impl Sheet {
    /// A sheet for cells of a kind, of which every one is NA.
    pub fn new(alloc: Global, kind: Kind) -> Result<Sheet, AllocError>
        ensures { IfOk result (λ sheet. sheet ≡ (is_text_kind kind, replicate 64 Na)) }
    {
        let page = match kind {
            Kind::Text => Shared::Text(Arc::new(alloc, TextPage::new())?),
            _ => Shared::Plain(Arc::new(alloc, Page::new())?),
        };
        Ok(Sheet { page })
    }

    pub fn get(&self, at: u8) -> Cell
        requires { at < 64 }
        ensures cell { slice_get self.now.1 at ≡ Some result }
        ensures size { length self.now.1 ≡ 64 }
    {
        match &self.page {
            Shared::Plain(page) => page.get(at),
            Shared::Text(page) => page.get(at),
        }
    }

    /// Whether two sheets have the same cell at a place.
    fn is_same_at(&self, other: &Sheet, at: u8) -> bool
        requires { at < 64 }
        ensures { result ≡ same_cell (slice_index_or self.now.1 at Na) (slice_index_or other.now.1 at Na) }
    {
        match (&self.page, &other.page) {
            (Shared::Plain(one), Shared::Plain(other)) => one.get(at) == other.get(at),
            _ => self.get(at) == other.get(at),
        }
    }

    /// Puts a cell of its kind in a place. Want of memory leaves the sheet as it was.
    pub fn put(&mut self, alloc: Global, at: u8, cell: Cell) -> Result<(), AllocError>
        requires place { at < 64 }
        requires fitting { IsHeldBy self.old cell }
        ensures ok { OnOk result (self.new ≡ (self.old.0, slice_set self.old.1 at cell)) }
        ensures err { OnErr result (self.new ≡ self.old) }
    {
        match &mut self.page {
            Shared::Plain(page) => put_plain(page, alloc, at, cell),
            Shared::Text(page) => put_text(page, alloc, at, cell),
        }
    }

    /// Whether every cell is NA.
    pub fn is_empty(&self) -> bool
        ensures { result ≡ list_all is_na self.now.1 }
    {
        match &self.page {
            Shared::Plain(page) => page.is_empty(),
            Shared::Text(page) => page.is_empty(),
        }
    }

    /// Whether every cell but that at a place is NA.
    pub fn is_blank_without(&self, at: u8) -> bool
        requires place { at < 64 }
        requires size { length self.now.1 ≡ 64 }
        ensures { result ≡ list_all is_na (slice_set self.now.1 at Na) }
    {
        for place in 0..64 {
            if place != at && self.get(place) != Cell::Na {
                return false;
            }
        }
        true
    }

    /// How many places it has.
    fn places(&self) -> u8
        ensures size { result ≡ length self.now.1 }
        ensures value { result ≡ 64 }
    {
        let _ = self.get(0);
        64
    }

    /// The first place from one on whose cell isn't NA, with its cell.
    pub fn used_from(&self, from: u8) -> Option<(u8, Cell)>
        ensures { IsFirstUsed self.now.1 from result }
    {
        for place in from..self.places() {
            let cell = self.get(place);
            if cell != Cell::Na {
                return Some((place, cell));
            }
        }
        None
    }

    /// The page itself, where its cells aren't TEXT.
    pub fn plain(&self) -> Option<&Page>
        ensures none { IsNone result ↔ IsTrue self.now.0 }
        ensures cells { IfSome result (λ page. page.now ≡ self.now.1) }
    {
        match &self.page {
            Shared::Plain(page) => Some(page),
            Shared::Text(_) => None,
        }
    }
}

impl Clone for Sheet {
    ghost use Rattle.std.specs.Prelude.{◌≡◌};

    ghost is_clone = { λ sheet copy. copy ≡ sheet };

    fn clone(&self) -> Result<Sheet, AllocError> {
        let page = match &self.page {
            Shared::Plain(page) => Shared::Plain(Arc::try_clone(page)?),
            Shared::Text(page) => Shared::Text(Arc::try_clone(page)?),
        };
        Ok(Sheet { page })
    }
}

impl PartialEq for Sheet {
    ghost use Rattle.std.specs.Prelude.{◌≡◌, ◌&&◌};
    ghost use Rattle.std.specs.Bool.{beq};
    ghost use Rattle.std.specs.Cmp.{and_per, on_per, partial_equiv_from_equiv, decided, booleans_Decides};
    ghost use Rattle.std.specs.Cmp.Lexicographic.{pointwise, lists_per};
    ghost use Rattle.aw_cell.specs.Cell.{same_cell};
    ghost use Rattle.aw_cell.specs.SameCell.{same_cell_partial_equivalence};

    ghost eq = { λ one other. beq one.0 other.0 && pointwise same_cell one.1 other.1 };

    ghost laws = { and_per (on_per (λ s. s.0) (partial_equiv_from_equiv (decided beq booleans_Decides))) (on_per (λ s. s.1) (lists_per same_cell_partial_equivalence)) };

    fn eq(&self, other: &Sheet) -> bool {
        match (&self.page, &other.page) {
            (Shared::Plain(one), Shared::Plain(other)) => **one == **other,
            (Shared::Text(one), Shared::Text(other)) => **one == **other,
            _ => false,
        }
    }
}

/// The cell at a place of a sheet, NA where there is no sheet.
pub fn cell_in(sheet: Option<&Sheet>, at: u8) -> Cell
    requires { at < 64 }
    ensures { result ≡ cell_on (option_copied sheet.entry) at }
{
    match sheet {
        Some(sheet) => sheet.get(at),
        None => Cell::Na,
    }
}

/// Whether a page has a sheet before and now, with the same cells.
pub fn is_unchanged(before: Option<&Sheet>, now: Option<&Sheet>) -> bool
    ensures { IsTrue result → option_copied before.entry ≡ option_copied now.entry }
{
    match (before, now) {
        (Some(before), Some(now)) => *before == *now,
        _ => false,
    }
}

/// Whether a place of a page has the same cell before and now.
pub fn is_same_in(before: Option<&Sheet>, now: Option<&Sheet>, at: u8) -> bool
    requires { at < 64 }
    ensures { result ≡ same_cell (cell_on (option_copied before.entry) at) (cell_on (option_copied now.entry) at) }
{
    match (before, now) {
        (Some(before), Some(now)) => before.is_same_at(now, at),
        _ => cell_in(before, at) == cell_in(now, at),
    }
}
