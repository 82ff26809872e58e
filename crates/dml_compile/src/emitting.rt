//! The ops of a tree.
ghost use Rattle.std.specs.Prelude.{◌≡◌, ◌++◌, length, OnOk};
ghost use Rattle.dml_compile.specs.Compiled.{fixes_of};
ghost use Rattle.dml_compile.specs.TreeKinds.{wanted_in};
ghost use Rattle.dml_compile.specs.inside.Emitted as spec;

use crate::draft::{Draft, end_choice, gap, number, put};
use crate::formulas::Formulas;
use crate::moving::put_code;
use crate::naming::{load, put_fixes};
use aw_cell::{Cell, Kind};
use dml_exec::Op;
use dml_kinds::{Taken, Tree, ValueType};
use dml_tree::Joint;
use std::alloc::{AllocError, Global};

/// The kind in which operands are wanted that meet in a type.
fn wanted_in(met: ValueType, wanted: Kind) -> Kind
    ensures { result ≡ wanted_in met wanted }
{
    match met {
        ValueType::Na => wanted,
        ValueType::Of(kind) => kind,
    }
}

fn joint_op(joint: Joint) -> Op
    ensures { result ≡ spec.joint_op joint }
{
    match joint {
        Joint::Or => Op::Or,
        Joint::And => Op::And,
        Joint::Compare(order) => Op::Compare(order),
        Joint::Add => Op::Add,
        Joint::Sub => Op::Sub,
        Joint::Mul => Op::Mul,
        Joint::Div => Op::Div,
        Joint::Min => Op::Min,
        Joint::Max => Op::Max,
        Joint::NaFill => Op::NaFill,
    }
}

/// Adds the ops of a formula's name; one that is unknown is NA.
fn put_formula(
    alloc: Global,
    library: &Formulas,
    taken: &Taken,
    draft: &mut Draft,
) -> Result<(), AllocError>
    ensures ops { OnOk result (draft.new.ops.items ≡ draft.old.ops.items ++ spec.formula_ops (spec.formula_code library.now.trees taken.now.object) taken.now (length draft.old.ops.items) (length draft.old.fixes.items)) }
    ensures fixes { OnOk result (draft.new.fixes.items ≡ draft.old.fixes.items ++ ((spec.formula_code library.now.trees taken.now.object).fixes ++ fixes_of taken.now.fixes)) }
{
    match library.code(taken.object) {
        Some(code) => put_code(alloc, draft, code, taken),
        None => {
            put_fixes(&mut draft.fixes, taken.fixes.as_slice())?;
            put(
                draft,
                Op::Push {
                    cell: Cell::Na,
                    kind: Kind::Int,
                },
            )
        }
    }
}

/// Adds the ops of a tree, whose cell is of the kind that is wanted. The only error is want of memory.
pub fn emit(
    alloc: Global,
    library: &Formulas,
    tree: &Tree,
    wanted: Kind,
    draft: &mut Draft,
) -> Result<(), AllocError>
    ensures ops { OnOk result (draft.new.ops.items ≡ draft.old.ops.items ++ (spec.emitted (spec.formula_code library.now.trees) tree.now).ops wanted (length draft.old.ops.items) (length draft.old.fixes.items)) }
    ensures fixes { OnOk result (draft.new.fixes.items ≡ draft.old.fixes.items ++ (spec.emitted (spec.formula_code library.now.trees) tree.now).fixes) }
{
    match tree {
        Tree::Literal(cell) => put(
            draft,
            Op::Push {
                cell: *cell,
                kind: wanted,
            },
        ),
        Tree::Local(local, _) => put(draft, Op::Local(number(*local)?)),
        Tree::Dimension(dimension) => put(
            draft,
            Op::Name {
                dimension: *dimension,
            },
        ),
        Tree::Variable(_, taken) => load(alloc, draft, taken),
        Tree::Relation(target, taken) => {
            load(alloc, draft, taken)?;
            put(draft, Op::NameOf { dimension: *target })
        }
        Tree::Formula(_, taken) => put_formula(alloc, library, taken, draft),
        Tree::Not(operand) => {
            emit(alloc, library, operand.get(), Kind::Bool, draft)?;
            put(draft, Op::Not)
        }
        Tree::Negative(kind, operand) => {
            emit(alloc, library, operand.get(), *kind, draft)?;
            put(draft, Op::Neg)
        }
        Tree::Abs(kind, operand) => {
            emit(alloc, library, operand.get(), *kind, draft)?;
            put(draft, Op::Abs)
        }
        Tree::AsNumber(operand) => {
            emit(alloc, library, operand.get(), Kind::Int, draft)?;
            put(draft, Op::Convert(Kind::Num))
        }
        Tree::Joined(joint, met, left, right) => {
            let kind = wanted_in(*met, wanted);
            emit(alloc, library, left.get(), kind, draft)?;
            emit(alloc, library, right.get(), kind, draft)?;
            put(draft, joint_op(*joint))
        }
        Tree::If(met, condition, first, second) => {
            let kind = wanted_in(*met, wanted);
            emit(alloc, library, condition.get(), Kind::Bool, draft)?;
            let branch = gap(draft)?;
            emit(alloc, library, first.get(), kind, draft)?;
            let jump = gap(draft)?;
            emit(alloc, library, second.get(), kind, draft)?;
            end_choice(draft, branch, jump, kind)?;
            Ok(())
        }
    }
}
