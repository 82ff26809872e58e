//! What a statement that passed its tests asks for: its expressions are evaluated.

ghost use Rattle.std.specs.Prelude.{◌≡◌, ◌≢◌, All, IfErr, IfOk, IsErr, IsTrue, OnOk, None, Some, cond, map};
ghost use Rattle.std.specs.List.{list_all};
ghost use Rattle.dml_kinds.specs.FreeDimensions.{is_among};
ghost use Rattle.dml_loop.specs.Fixes.{Answers};
ghost use Rattle.mv_view.specs.ViewState.{kinds_of, kept_kinds};
ghost use Rattle.ses_value.specs.Evaluating.{shown_in, assigned_in};
ghost use Rattle.ses_value.specs.Expressions.{IsOfALine};
ghost use Rattle.ses_step.specs.inside.Effects as inside;
ghost use Rattle.ses_step.specs.Commands as commands;
ghost use Rattle.ses_step.specs.Maintaining as maintaining;
ghost use Rattle.ses_step.specs.Meant as spec;
ghost use Rattle.ses_step.specs.Sessions.{Sees, name_of};
ghost use Rattle.ses_report.specs.Refusals.{no_form};

use crate::command::{Asked, Command, command_of, runs};
use crate::objects::name_of;
use crate::session::Known;
use aw_cell::{Arith, Text};
use aw_dim::Dimension;
use aw_lists::{Coord, List};
use aw_schema::{Catalogue, DefKind};
use dim_maintain::{MaintainFault, added, deleted, moved, renamed};
use dml_exec::Fix;
use dml_kinds::TypedExpr;
use dml_loop::{LoopFault, Target};
use dml_tree::{Fix as WrittenFix, Statement, Target as WrittenTarget};
use dml_types::Typed;
use mv_view::View;
use ses_report::Refusal;
use ses_value::{AssignedTo, assigned, shown};
use std::alloc::{AllocError, Global};

/// Why a run is refused.
fn fault_refusal(catalogue: &Catalogue, fault: &LoopFault) -> Refusal
    ensures { result ≡ spec.fault_refusal catalogue.now fault.now }
{
    match fault {
        LoopFault::Arith(Arith::Overflow) => Refusal::overflow(),
        LoopFault::Arith(Arith::DivideByZero) => Refusal::zero_divisor(),
        LoopFault::NoValue(text) => Refusal::no_value(*text),
        LoopFault::Empty { dimension } => Refusal::null_status(name_of(catalogue, *dimension)),
        LoopFault::TooMany => Refusal::too_many(),
        LoopFault::NoMemory => Refusal::no_form(),
    }
}

/// What a statement with such a fault asks for. The only error is want of memory.
fn refused_by(catalogue: &Catalogue, fault: LoopFault) -> Result<Asked, AllocError>
    ensures value { IfOk result (λ asked. asked ≡ Asked.Refused (spec.fault_refusal catalogue.now fault)) }
    ensures memory { fault ≡ LoopFault.NoMemory → IsErr result }
{
    match fault {
        LoopFault::NoMemory => Err(AllocError),
        fault => Ok(Asked::Refused(fault_refusal(catalogue, &fault))),
    }
}

/// A fixed value with its dimension by number, where that is defined.
fn fix_of(catalogue: &Catalogue, fix: &WrittenFix) -> Option<Fix>
    ensures { result ≡ spec.fix_of catalogue.now fix.now }
{
    match catalogue.find(&fix.dimension) {
        Some(dimension) => Some(Fix {
            dimension,
            value: fix.value,
        }),
        None => None,
    }
}

fn fixes_of(
    alloc: Global,
    catalogue: &Catalogue,
    fixes: &[WrittenFix],
) -> Result<Vec<Fix>, AllocError>
    ensures { IfOk result (λ all. all.items ≡ spec.fixes_of catalogue.now fixes.now) }
{
    fixes
        .iter()
        .filter_map(|fix| fix_of(catalogue, fix))
        .collect(alloc)
}

/// What is written to an object of this definition, at these fixed values.
fn target_of(kind: &DefKind, fixes: List<Fix>) -> Option<AssignedTo>
    ensures { result ≡ spec.target_of kind.now fixes }
{
    match kind {
        DefKind::Variable { kind, dimensions } => Some(AssignedTo {
            target: Target::Kind(*kind),
            dimensions: *dimensions,
            fixes,
        }),
        DefKind::Relation { target, base } => Some(AssignedTo {
            target: Target::Relation(*target),
            dimensions: Coord::of(&[*base]).unwrap(),
            fixes,
        }),
        _ => None,
    }
}

/// SHOW of an expression by what a session sees.
#[tactic(auto, using(crate::proofs::Faults::settled))]
fn show(
    alloc: Global,
    catalogue: &Catalogue,
    view: &View,
    expression: &TypedExpr,
) -> Result<Asked, AllocError>
    requires sees { kinds_of view.now ≡ kept_kinds catalogue.now }
    requires of_a_line { IsOfALine expression.now }
    ensures { IfOk result (λ asked. asked ≡ spec.given catalogue.now Command.Show (shown_in view.now expression.now)) }
{
    match shown(alloc, catalogue, view, expression) {
        Ok(cell) => Ok(Asked::Runs(Command::Show(cell))),
        Err(fault) => refused_by(catalogue, fault),
    }
}

/// The cells that an assignment writes to an object.
#[tactic(auto, using(crate::proofs::Faults::settled))]
fn write(
    alloc: Global,
    catalogue: &Catalogue,
    view: &View,
    object: u16,
    to: &AssignedTo,
    expression: &TypedExpr,
) -> Result<Asked, AllocError>
    requires sees { kinds_of view.now ≡ kept_kinds catalogue.now }
    requires of_a_line { IsOfALine expression.now }
    requires over { IsTrue (list_all (is_among to.now.dimensions) expression.now.dimensions) }
    ensures { IfOk result (λ asked. asked ≡ spec.given catalogue.now (Command.Write object) (assigned_in view.now to.now expression.now)) }
{
    match assigned(alloc, catalogue, view, to, expression) {
        Ok(cells) => Ok(Asked::Runs(Command::Write { object, cells })),
        Err(fault) => refused_by(catalogue, fault),
    }
}

/// An assignment by what a session sees.
#[tactic(auto, using(crate::proofs::EffectsMeant::target_over))]
fn assign(
    alloc: Global,
    catalogue: &Catalogue,
    view: &View,
    target: &WrittenTarget,
    expression: &TypedExpr,
) -> Result<Asked, AllocError>
    requires sees { kinds_of view.now ≡ kept_kinds catalogue.now }
    requires of_a_line { IsOfALine expression.now }
    requires over { inside.IsOver catalogue.now target.now expression.now }
    ensures { IfOk result (λ asked. asked ≡ inside.assigned_by catalogue.now view.now target.now expression.now) }
{
    let fixes = List::from_vec(fixes_of(alloc, catalogue, target.fixes.as_slice())?);
    let Some(object) = catalogue.find(&target.name) else {
        return Ok(Asked::Refused(Refusal::no_form()));
    };
    let Some(def) = catalogue.def(object) else {
        return Ok(Asked::Refused(Refusal::no_form()));
    };
    match target_of(&def.kind, fixes) {
        Some(to) => write(alloc, catalogue, view, object, &to, expression),
        None => Ok(Asked::Refused(Refusal::no_form())),
    }
}

/// Why MAINTAIN of a dimension is refused.
fn maintain_refusal(catalogue: &Catalogue, dimension: u16, fault: &MaintainFault) -> Refusal
    ensures { result ≡ maintaining.maintain_refusal (name_of catalogue.now dimension) fault.now }
{
    match fault {
        MaintainFault::NoValue(text) => Refusal::no_value(*text),
        MaintainFault::Repeated(text) => Refusal::repeated(*text),
        MaintainFault::Full => Refusal::full(name_of(catalogue, dimension)),
        MaintainFault::NoMemory => Refusal::no_form(),
    }
}

/// What MAINTAIN with such a fault asks for. The only error is want of memory.
fn maintain_refused(
    catalogue: &Catalogue,
    dimension: u16,
    fault: MaintainFault,
) -> Result<Asked, AllocError>
    ensures value { IfOk result (λ asked. asked ≡ Asked.Refused (maintaining.maintain_refusal (name_of catalogue.now dimension) fault)) }
    ensures memory { fault ≡ MaintainFault.NoMemory → IsErr result }
{
    match fault {
        MaintainFault::NoMemory => Err(AllocError),
        fault => Ok(Asked::Refused(maintain_refusal(catalogue, dimension, &fault))),
    }
}

/// The values that a dimension has behind MAINTAIN. Any other statement leaves them.
fn changed(statement: &Statement, values: &Dimension) -> Result<Dimension, MaintainFault>
    ensures value { IfOk result (λ made. made ≡ maintaining.change_of statement.now values.now) }
    ensures accepted { OnOk result (maintaining.cause_of statement.now values.now ≡ None) }
    ensures refused { IfErr result (λ fault. fault ≢ MaintainFault.NoMemory → maintaining.cause_of statement.now values.now ≡ Some fault) }
{
    match statement {
        Statement::Add(_, names, place) => added(values, names.as_slice(), place),
        Statement::Delete(_, names) => deleted(values, names.as_slice()),
        Statement::Move(_, names, place) => moved(values, names.as_slice(), place),
        Statement::Rename(_, old, new) => renamed(values, old, new),
        _ => Ok(values.copied()?),
    }
}

/// The command that gives a dimension these values.
#[tactic(auto, using(crate::proofs::Maintaining::guarded))]
fn maintained(object: u16, values: Dimension) -> Asked
    ensures { result ≡ cond (maintaining.is_dimension values) (Asked.Runs (Command.Maintain object values)) (Asked.Refused no_form) }
{
    let _ = values.next();
    Asked::Runs(Command::Maintain { object, values })
}

/// What MAINTAIN of these values asks for.
#[tactic(auto, using(crate::proofs::Maintaining::maintain_settled))]
fn maintain_values(
    catalogue: &Catalogue,
    statement: &Statement,
    object: u16,
    values: &Dimension,
) -> Result<Asked, AllocError>
    ensures { IfOk result (λ asked. asked ≡ maintaining.of_values catalogue.now statement.now object (Some values.now)) }
{
    match changed(statement, values) {
        Ok(values) => Ok(maintained(object, values)),
        Err(fault) => maintain_refused(catalogue, object, fault),
    }
}

/// MAINTAIN of a dimension by what a session sees.
#[tactic(auto, using(crate::proofs::Maintaining::values_seen))]
fn maintain(
    catalogue: &Catalogue,
    view: &View,
    statement: &Statement,
    object: u16,
) -> Result<Asked, AllocError>
    ensures { IfOk result (λ asked. asked ≡ maintaining.of_values catalogue.now statement.now object (maintaining.dimension_in view.now object)) }
{
    view.recall_forms();
    match view.values(object) {
        Some(values) => maintain_values(catalogue, statement, object, values),
        None => Ok(Asked::Refused(Refusal::no_form())),
    }
}

/// What a statement that shares the workspace asks for; one that doesn't run yet is refused with 1.
fn shares(
    alloc: Global,
    statement: &Statement,
    objects: &[(Text, u16)],
) -> Result<Asked, AllocError>
    ensures { IfOk result (λ asked. asked ≡ spec.runs (commands.command_of statement.now (map (λ named. named.1) objects.now))) }
{
    let objects = numbers(alloc, objects)?;
    Ok(runs(command_of(alloc, statement, &objects)?))
}

/// The numbers of objects that stand with their names.
fn numbers(alloc: Global, objects: &[(Text, u16)]) -> Result<Vec<u16>, AllocError>
    ensures { IfOk result (λ numbers. numbers.items ≡ map (λ named. named.1) objects.now) }
{
    objects.iter().map(|named| named.1).collect(alloc)
}

impl Known {
    fn show(
        &self,
        alloc: Global,
        catalogue: &Catalogue,
        expressions: &[TypedExpr],
    ) -> Result<Asked, AllocError>
        requires sees { Sees catalogue.now self.now }
        requires of_a_line { All IsOfALine expressions.now }
        ensures { IfOk result (λ asked. asked ≡ inside.first_shown catalogue.now self.now expressions.now) }
    {
        let [expression, ..] = expressions else {
            return Ok(Asked::Refused(Refusal::no_form()));
        };
        match &self.view {
            Some(view) => show(alloc, catalogue, view, expression),
            None => Ok(Asked::Refused(Refusal::not_attached())),
        }
    }

    fn assign(
        &self,
        alloc: Global,
        catalogue: &Catalogue,
        target: &WrittenTarget,
        expressions: &[TypedExpr],
    ) -> Result<Asked, AllocError>
        requires sees { Sees catalogue.now self.now }
        requires of_a_line { All IsOfALine expressions.now }
        requires over { All (inside.IsOver catalogue.now target.now) expressions.now }
        ensures { IfOk result (λ asked. asked ≡ inside.first_assigned catalogue.now self.now target.now expressions.now) }
    {
        let [expression, ..] = expressions else {
            return Ok(Asked::Refused(Refusal::no_form()));
        };
        match &self.view {
            Some(view) => assign(alloc, catalogue, view, target, expression),
            None => Ok(Asked::Refused(Refusal::not_attached())),
        }
    }

    /// MAINTAIN of the dimension that it names.
    fn maintains(
        &self,
        catalogue: &Catalogue,
        statement: &Statement,
        objects: &[(Text, u16)],
    ) -> Result<Asked, AllocError>
        ensures { IfOk result (λ asked. asked ≡ spec.on_view self.now (λ view.
            maintaining.maintained_asked catalogue.now statement.now view (map (λ named. named.1) objects.now))) }
    {
        let Some(view) = &self.view else {
            return Ok(Asked::Refused(Refusal::not_attached()));
        };
        match objects {
            [named] => maintain(catalogue, view, statement, named.1),
            _ => Ok(Asked::Refused(Refusal::no_form())),
        }
    }

    /// What SHOW, an assignment or MAINTAIN comes to, and `None` for any other statement.
    fn evaluated(
        &self,
        alloc: Global,
        catalogue: &Catalogue,
        statement: &Statement,
        typed: &Typed,
    ) -> Result<Option<Asked>, AllocError>
        requires sees { Sees catalogue.now self.now }
        requires of_a_line { All IsOfALine typed.now.expressions }
        requires over { inside.AreOver catalogue.now statement.now typed.now.expressions }
        ensures { IfOk result (λ asked. asked ≡ inside.evaluated catalogue.now self.now statement.now typed.now) }
    {
        let expressions = typed.expressions.as_slice();
        let objects = typed.objects.as_slice();
        Ok(match statement {
            Statement::Show(_) => Some(self.show(alloc, catalogue, expressions)?),
            Statement::Assign(target, _) => {
                Some(self.assign(alloc, catalogue, target, expressions)?)
            }
            Statement::Add(..) => Some(self.maintains(catalogue, statement, objects)?),
            Statement::Delete(..) => Some(self.maintains(catalogue, statement, objects)?),
            Statement::Move(..) => Some(self.maintains(catalogue, statement, objects)?),
            Statement::Rename(..) => Some(self.maintains(catalogue, statement, objects)?),
            _ => None,
        })
    }

    /// What a statement asks for that was checked and passed. Its expressions are evaluated by what
    /// the session sees.
    pub(crate) fn effect(
        &self,
        alloc: Global,
        catalogue: &Catalogue,
        statement: &Statement,
        typed: &Typed,
    ) -> Result<Asked, AllocError>
        requires sees { Sees catalogue.now self.now }
        requires of_a_line { All IsOfALine typed.now.expressions }
        requires over { inside.AreOver catalogue.now statement.now typed.now.expressions }
        ensures { IfOk result (λ asked. asked ≡ inside.effect catalogue.now self.now statement.now typed.now) }
    {
        match self.evaluated(alloc, catalogue, statement, typed)? {
            Some(asked) => Ok(asked),
            None => shares(alloc, statement, typed.objects.as_slice()),
        }
    }
}
