ghost use Rattle.std.specs.Prelude.{◌≡◌, IfOk, IfErr, length};
ghost use Rattle.dml_exec.specs.CodeRuns.{Accepts, FaultsAt};
ghost use Rattle.dml_exec.specs.Verified.{rules_of};
ghost use Rattle.dml_exec.specs.declared.fault.CodeFault.TheVariants.{NoMemory};
ghost use Rattle.dml_compile.specs.Compiled.{Compiles};
ghost use Rattle.dml_compile.specs.FormulasView.{formula_tree, kinds_with, wanted_for};
ghost use Rattle.dml_compile.specs.Laws.{HasAcceptedCode};
ghost use Rattle.dml_compile.specs.inside.Emitted.{tree_code};
ghost use Rattle.dml_compile.specs.inside.Library.{HasCode};

use crate::draft::{Draft, no_ops};
use crate::emitting::emit;
use crate::formulas::Formulas;
use aw_cell::Kind;
use aw_lists::List;
use dml_exec::{Code, CodeFault, Fix, Kinds, Op, accepted_code_is_never_stuck};
use dml_kinds::{TypedExpr, ValueType};
use std::alloc::{AllocError, Global};

/// The kind in which the value of a type is wanted; NA alone is one of any kind.
fn wanted_for(of: ValueType) -> Kind
    ensures { result ≡ wanted_for of }
{
    match of {
        ValueType::Na => Kind::Int,
        ValueType::Of(kind) => kind,
    }
}

/// What code may name that has these locals.
fn kinds_with(alloc: Global, library: &Formulas, locals: &[Kind]) -> Result<Kinds, AllocError>
    ensures { IfOk result (λ kinds. kinds ≡ kinds_with library.now.objects locals.now) }
{
    Ok(Kinds {
        objects: List::from_slice(alloc, library.kinds.objects.as_slice())?,
        locals: List::from_slice(alloc, locals)?,
    })
}

/// Accepts ops and their fixes.
fn accepted(
    alloc: Global,
    library: &Formulas,
    locals: &[Kind],
    ops: List<Op>,
    fixes: List<Fix>,
) -> Result<Code, CodeFault>
    ensures ops { IfOk result (λ code. code.ops ≡ ops) }
    ensures fixes { IfOk result (λ code. code.fixes ≡ fixes) }
    ensures accepted { IfOk result (λ code. Accepts (kinds_with library.now.objects locals.now) code) }
    ensures bad { IfErr result (FaultsAt (rules_of (kinds_with library.now.objects locals.now) (length fixes) ops)) }
{
    if locals.is_empty() {
        return Code::verify(alloc, ops, fixes, &library.kinds);
    }
    let kinds = kinds_with(alloc, library, locals)?;
    Code::verify(alloc, ops, fixes, &kinds)
}

/// The ops of an expression's tree, accepted. A bad op is never told of an expression that was
/// accepted (`accepted_expressions_have_code`).
fn tried(alloc: Global, typed: &TypedExpr, library: &Formulas) -> Result<Code, CodeFault>
    ensures code { IfOk result (λ code. HasCode code (tree_code library.now.trees (formula_tree 0 typed.now))) }
    ensures accepted { IfOk result (λ code. Accepts (kinds_with library.now.objects typed.now.locals) code) }
    ensures bad { IfErr result (λ fault. HasAcceptedCode library.now.objects library.now.trees typed.now → fault ≡ NoMemory) }
{
    let mut draft = no_ops(alloc);
    emit(
        alloc,
        library,
        &typed.tree,
        wanted_for(typed.kind),
        &mut draft,
    )?;
    let Draft { ops, fixes } = draft;
    let (ops, fixes) = (List::from_vec(ops), List::from_vec(fixes));
    accepted(alloc, library, typed.locals.as_slice(), ops, fixes)
}

/// Code of an expression, with the ops of its tree.
pub(crate) fn compiled(
    alloc: Global,
    typed: &TypedExpr,
    library: &Formulas,
) -> Result<Code, AllocError>
    ensures code { IfOk result (λ code. HasCode code (tree_code library.now.trees (formula_tree 0 typed.now))) }
    ensures accepted { IfOk result (λ code. Accepts (kinds_with library.now.objects typed.now.locals) code) }
{
    match tried(alloc, typed, library) {
        Ok(code) => Ok(code),
        Err(_) => Err(AllocError),
    }
}

/// Code of an expression: on all that fits it has the value of the expression, at every place, where
/// the slots of its fixed values were looked up before. Formulas are looked through. The only error is
/// want of memory (docs/LANGUAGE.md, "Expressions").
pub fn compile(alloc: Global, typed: &TypedExpr, library: &Formulas) -> Result<Code, AllocError>
    ensures { IfOk result (λ code. Compiles library.now.trees (kinds_with library.now.objects typed.now.locals) typed.now.tree code) }
{
    accepted_code_is_never_stuck();
    compiled(alloc, typed, library)
}
