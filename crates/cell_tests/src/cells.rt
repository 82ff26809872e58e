ghost use Rattle.std.specs.Prelude.{IsTrue};
ghost use Rattle.aw_cell.specs.CellArithmetic.{is_numeric};

use aw_cell::{Arith, Cell, Kind, Number, NumberFault, Operator, Order, Rest, Spread, Text};
use std::alloc::Global;
use std::test::Fail;

const MOST: i64 = 999_999_999_999_999_999;

fn number(units: i64) -> Cell
    ensures { IsTrue (is_numeric result) }
{
    match Number::of_units(units) {
        Some(number) => Cell::Num(number),
        None => Cell::Na,
    }
}

fn text(bytes: &[u8]) -> Cell {
    match Text::of(bytes) {
        Some(text) => Cell::Text(text),
        None => Cell::Na,
    }
}

fn gives(found: Result<Cell, Arith>, cell: Cell) -> bool {
    found == Ok(cell)
}

fn fails(found: Result<Cell, Arith>, why: Arith) -> bool {
    found == Err(why)
}

fn is(found: Cell, cell: Cell) -> bool {
    found == cell
}

fn computes_with_both_kinds() -> bool {
    gives(Cell::Int(2).add(Cell::Int(3)), Cell::Int(5))
        & gives(Cell::Int(2).sub(number(5_000)), number(15_000))
        & gives(number(5_000).mul(Cell::Int(3)), number(15_000))
        & gives(Cell::Int(2).div(Cell::Int(3)), number(6_667))
        & gives(number(-20_000).div(Cell::Int(3)), number(-6_667))
        & gives(number(-1).mul(number(5_000)), number(-1))
}

fn keeps_the_ranges() -> bool {
    fails(Cell::Int(-2_147_483_647).sub(Cell::Int(1)), Arith::Overflow)
        & fails(Cell::Int(65_536).mul(Cell::Int(32_768)), Arith::Overflow)
        & fails(Cell::Int(i32::MIN).neg(), Arith::Overflow)
        & fails(Cell::Int(i32::MIN).abs(), Arith::Overflow)
        & fails(number(MOST).add(number(1)), Arith::Overflow)
        & fails(number(MOST).mul(number(MOST)), Arith::Overflow)
        & fails(Cell::Int(1).div(Cell::Int(0)), Arith::DivideByZero)
        & gives(Cell::Na.div(Cell::Int(0)), Cell::Na)
}

fn takes_sizes_and_extremes() -> bool {
    gives(number(5_000).neg(), number(-5_000))
        & gives(number(-5_000).abs(), number(5_000))
        & gives(Cell::Int(-3).min(Cell::Int(2)), Cell::Int(-3))
        & gives(number(5_000).max(Cell::Int(1)), number(10_000))
        & gives(Cell::Int(i32::MIN).min(Cell::Na), Cell::Na)
}

fn converts_and_rounds() -> bool {
    gives(number(5_000).convert(Kind::Int), Cell::Int(1))
        & gives(number(-5_000).convert(Kind::Int), Cell::Int(-1))
        & gives(number(-4_999).convert(Kind::Int), Cell::Int(0))
        & fails(
            number(21_474_836_475_000).convert(Kind::Int),
            Arith::Overflow,
        )
        & gives(Cell::Int(-2).convert(Kind::Num), number(-20_000))
}

#[test]
fn computes(rt: HostRuntime) {
    let computed = computes_with_both_kinds() & keeps_the_ranges();
    assert!(rt; computed & takes_sizes_and_extremes() & converts_and_rounds());
}

fn is_text_below(low: &[u8], high: &[u8]) -> bool {
    match (Text::of(low), Text::of(high)) {
        (Some(low), Some(high)) => is(
            Cell::Text(low).compare(Order::Lt, Cell::Text(high)),
            Cell::Bool(true),
        ),
        _ => false,
    }
}

fn is_number_below(units: i64, integer: i32) -> bool {
    match Number::of_units(units) {
        Some(number) => is(
            Cell::Num(number).compare(Order::Lt, Cell::Int(integer)),
            Cell::Bool(true),
        ),
        None => false,
    }
}

fn compares() -> bool {
    is_number_below(5_000, 1)
        & is_text_below(b"North 10", b"South")
        & !is_text_below(b"South", b"North 10")
        & is(Cell::Na.compare(Order::Eq, Cell::Na), Cell::Bool(true))
        & is(Cell::Na.compare(Order::Ge, Cell::Na), Cell::Na)
}

fn joins_yes_no_and_na() -> bool {
    is(Cell::Bool(false).and(Cell::Na), Cell::Bool(false))
        & is(Cell::Na.or(Cell::Bool(false)), Cell::Na)
        & is(Cell::Bool(true).not(), Cell::Bool(false))
        & is(Cell::Na.fill(Cell::Int(7)), Cell::Int(7))
}

fn shows_a_text(alloc: Global) -> Result<bool, Fail> {
    let cell = text(b"North \"1\"");
    let printed = format!(in alloc; "{cell:?}")?;
    Ok(printed.as_str() == r#"Text("North \"1\"")"#)
}

#[test]
fn compares_and_joins(rt: HostRuntime) -> Result<(), Fail> {
    assert!(rt; compares() & joins_yes_no_and_na() & shows_a_text(rt.alloc())?);
    Ok(())
}

fn is_shared<T: Send + Sync>() {}

#[test]
fn cross_threads() {
    is_shared::<Number>();
    is_shared::<Text>();
    is_shared::<Cell>();
    is_shared::<Kind>();
    is_shared::<Order>();
    is_shared::<Operator>();
    is_shared::<Spread>();
    is_shared::<Rest>();
    is_shared::<Arith>();
    is_shared::<NumberFault>();
}
