ghost use Rattle.std.specs.Prelude.{◌≡◌, ◌≤◌, [], Err, IfOk, IfErr, IsTrue, length};
ghost use Rattle.std.specs.List.{list_all};
ghost use Rattle.dml_kinds.specs.FreeDimensions.{is_among};
ghost use Rattle.dml_compile.specs.Compiled.{Compiles, tree_fixes};
ghost use Rattle.dml_compile.specs.FormulasView.{kinds_with};
ghost use Rattle.dml_compile.specs.Objects.{object_kinds};
ghost use Rattle.dml_loop.specs.Fixes.{Answers, slots_of_fixes};
ghost use Rattle.dml_loop.specs.Loops.{places};
ghost use Rattle.mv_view.specs.ViewState.{kinds_of, kept_kinds};
ghost use Rattle.ses_value.specs.Evaluating as spec;
ghost use Rattle.ses_value.specs.Expressions.{IsOfALine};
ghost use Rattle.ses_value.specs.Held.{is_held};
ghost use Rattle.ses_value.specs.Seeing.{slot_in};
ghost use Rattle.ses_value.specs.inside.Running.{IsPrepared, Runs, code_value, stored_at};

use crate::holding::held;
use crate::reader::Reader;
use crate::selecting::{lists, statuses, target_selections};
use crate::target::AssignedTo;
use aw_cell::Cell;
use aw_lists::{Coord, List};
use aw_schema::Catalogue;
use dml_compile::{Formulas, compile};
use dml_exec::{Code, Stack};
use dml_kinds::TypedExpr;
use dml_loop::{DimensionList, LoopFault, Reading, Target, count_within, fixed_slots};
use mv_view::View;
use std::alloc::{AllocError, Global};

/// Code of an expression that names no formula.
fn code_of(alloc: Global, catalogue: &Catalogue, expression: &TypedExpr) -> Result<Code, AllocError>
    ensures { IfOk result (λ code. Compiles [] (kinds_with (object_kinds catalogue.now) expression.now.locals) expression.now.tree code) }
{
    let library = Formulas::new(alloc, catalogue)?;
    compile(alloc, expression, &library)
}

/// Code that can be run, with the slots of the values that it fixes.
#[derive(Drop)]
struct Prepared {
    code: Code,
    fixed: List<u16>,
}

/// Code of an expression of a line, whose fixed values are looked up.
fn prepare(
    alloc: Global,
    catalogue: &Catalogue,
    view: &View,
    expression: &TypedExpr,
) -> Result<Prepared, LoopFault>
    requires sees { kinds_of view.now ≡ kept_kinds catalogue.now }
    requires of_a_line { IsOfALine expression.now }
    ensures ok { IfOk result (λ prepared. IsPrepared view.now catalogue.now expression.now prepared.code prepared.fixed) }
    ensures err { IfErr result (λ why. Answers (slots_of_fixes (slot_in view.now) (tree_fixes [] expression.now.tree)) (Err why)) }
{
    view.recall_forms();
    let code = code_of(alloc, catalogue, expression)?;
    let fixed = fixed_slots(alloc, &Reader { view }, code.fixes().as_slice())?;
    Ok(Prepared { code, fixed })
}

/// The cell that SHOW of an expression prints: its value at the first status value of each free
/// dimension, by what a session sees. Refused are a fixed value that its dimension lacks, a dimension
/// without values, and what arithmetic refuses (docs/LANGUAGE.md, "SHOW").
pub fn shown(
    alloc: Global,
    catalogue: &Catalogue,
    view: &View,
    expression: &TypedExpr,
) -> Result<Cell, LoopFault>
    requires sees { kinds_of view.now ≡ kept_kinds catalogue.now }
    requires of_a_line { IsOfALine expression.now }
    ensures { Answers (spec.shown_in view.now expression.now) result }
{
    let prepared = prepare(alloc, catalogue, view, expression)?;
    let selections = statuses(alloc, view, expression.dimensions.slots())?;
    let lists = lists(alloc, selections.as_slice())?;
    let reading = Reading {
        code: &prepared.code,
        cells: &Reader { view },
        fixed: prepared.fixed.as_slice(),
        locals: &[],
    };
    let mut stack = Stack::new(alloc);
    dml_loop::shown(alloc, &reading, lists.as_slice(), &mut stack)
}

/// What is stored at all combinations of these lists, which are at most 4,194,304.
#[tactic(auto, using(crate::proofs::Evaluated::counted))]
fn stored_cells(
    alloc: Global,
    view: &View,
    prepared: &Prepared,
    target: Target,
    lists: &[DimensionList],
) -> Result<List<(Coord, Cell)>, LoopFault>
    requires few { length lists.now ≤ 6 }
    requires runs { Runs view.now prepared.now.code prepared.now.fixed (places lists.now) }
    ensures { Answers (spec.within view.now lists.now (stored_at view.now target (code_value view.now prepared.now.code prepared.now.fixed) lists.now)) result }
{
    if count_within(lists, 4_194_304).is_none() {
        return Err(LoopFault::TooMany);
    }
    let reading = Reading {
        code: &prepared.code,
        cells: &Reader { view },
        fixed: prepared.fixed.as_slice(),
        locals: &[],
    };
    let mut stack = Stack::new(alloc);
    dml_loop::assigned(alloc, &reading, target, lists, &mut stack)
}

/// The cells that an assignment of an expression writes, in loop order. Refused are a fixed value that
/// its dimension lacks, more than 4,194,304 cells, and then the first cell that arithmetic, its type
/// or a relation's target refuses (docs/LANGUAGE.md, "Assignment").
pub fn assigned(
    alloc: Global,
    catalogue: &Catalogue,
    view: &View,
    to: &AssignedTo,
    expression: &TypedExpr,
) -> Result<List<(Coord, Cell)>, LoopFault>
    requires sees { kinds_of view.now ≡ kept_kinds catalogue.now }
    requires of_a_line { IsOfALine expression.now }
    requires over { IsTrue (list_all (is_among to.now.dimensions) expression.now.dimensions) }
    ensures cells { Answers (spec.assigned_in view.now to.now expression.now) result }
    ensures held { IfOk result (λ cells. IsTrue (list_all (is_held (length to.now.dimensions) (spec.target_kind to.now.target)) cells)) }
{
    let _ = fixed_slots(alloc, &Reader { view }, to.fixes.as_slice())?;
    let prepared = prepare(alloc, catalogue, view, expression)?;
    let selections = target_selections(alloc, view, to)?;
    let lists = lists(alloc, selections.as_slice())?;
    let cells = stored_cells(alloc, view, &prepared, to.target, lists.as_slice())?;
    held(to, cells)
}
