use aw_cell::{Cell, Kind};
use aw_lists::Coord;
use aw_page::Page;
use aw_var::Variable;
use std::alloc::{AllocError, Global};
use std::test::Fail;

fn keeps(alloc: Global, at: &Coord) -> Result<bool, AllocError> {
    let mut sales = Variable::new(alloc, at.slots().len() as u8, Kind::Int);
    sales.put(at, Cell::Int(7))?;
    let before = sales.copied()?;
    sales.put(at, Cell::Na)?;
    Ok((sales.get(at) == Cell::Na) & (before.get(at) == Cell::Int(7)) & (before != sales))
}

// Whether the cells at two keys come in this order, and are counted.
fn goes_over(alloc: Global, first: &Coord, second: &Coord) -> Result<bool, AllocError> {
    if first.slots().len() != second.slots().len() {
        return Ok(false);
    }
    let mut sales = Variable::new(alloc, first.slots().len() as u8, Kind::Int);
    sales.put(second, Cell::Int(2))?;
    sales.put(first, Cell::Int(1))?;
    let mut left = sales.iter();
    let one = left.next() == Some((*first, Cell::Int(1)));
    let other = left.next() == Some((*second, Cell::Int(2)));
    Ok(one & other & left.next().is_none() & (sales.len() == 2))
}

// Whether a page has a cell at a place.
fn has_at(page: Option<&Page>, place: u8, cell: Cell) -> bool {
    match page {
        Some(page) => place < 64 && page.get(place) == cell,
        None => false,
    }
}

fn lends(alloc: Global, at: &Coord) -> Result<bool, AllocError> {
    let mut sales = Variable::new(alloc, at.slots().len() as u8, Kind::Int);
    sales.put(at, Cell::Int(2))?;
    Ok(has_at(sales.page(1), 6, Cell::Int(2)) & sales.page(0).is_none())
}

#[test]
fn a_copy_keeps_its_cells(rt: HostRuntime) -> Result<(), Fail> {
    let at = Coord::of(&[3, 64]).ok_or("two slots")?;
    assert!(rt; keeps(rt.alloc(), &at)?);
    Ok(())
}

#[test]
fn cells_and_pages_are_given_in_order(rt: HostRuntime) -> Result<(), Fail> {
    let first = Coord::of(&[3]).ok_or("a slot")?;
    let second = Coord::of(&[70]).ok_or("a slot")?;
    assert!(rt; goes_over(rt.alloc(), &first, &second)? & lends(rt.alloc(), &second)?);
    Ok(())
}
