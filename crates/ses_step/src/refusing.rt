//! Why a statement is refused before it runs.

ghost use Rattle.std.specs.Prelude.{◌≡◌, All, IfOk, IsErr, Ok, drop};
ghost use Rattle.dml_kinds.specs.Checking.{IsAnswer};
ghost use Rattle.ses_value.specs.Expressions.{IsOfALine};
ghost use Rattle.ses_step.specs.inside.Effects.{AreOver};
ghost use Rattle.ses_step.specs.Refusing as spec;
ghost use Rattle.ses_step.specs.SessionLines as line_spec;
ghost use Rattle.ses_step.specs.Sessions.{Sees};

use crate::command::Asked;
use crate::objects::is_seen;
use crate::session::Known;
use aw_body::Body;
use aw_cell::Text;
use aw_lists::List;
use aw_schema::Catalogue;
use dml_tree::{Expr, Fix, Mode, Select, Statement};
use dml_types::{Signatures, TypeFault, Typed, check};
use ses_report::Refusal;
use std::alloc::{AllocError, Global};

/// What is wrong with names, types, dimensions or weight, as a refusal.
pub fn types_refusal(fault: TypeFault) -> Refusal
    ensures { result ≡ spec.told fault }
{
    match fault {
        TypeFault::Unknown(name) => Refusal::unknown(name),
        TypeFault::WrongKind(name) => Refusal::wrong_kind(name),
        TypeFault::Repeat(name) => Refusal::repeated(name),
        TypeFault::Mismatch => Refusal::types_differ(),
        TypeFault::Dimensions => Refusal::dimensions_differ(),
        TypeFault::TooMany => Refusal::too_many(),
        TypeFault::NoMemory => Refusal::no_form(),
    }
}

/// What a statement of a session is, which has no locals, or what is wrong with it. No object has a
/// text yet.
fn checked(alloc: Global, catalogue: &Catalogue, statement: &Statement) -> Result<Typed, TypeFault>
    ensures answer { IsAnswer result (spec.checked catalogue.now statement.now) }
    ensures of_a_line { IfOk result (λ typed. All IsOfALine typed.expressions) }
    ensures over { IfOk result (λ typed. AreOver catalogue.now statement.now typed.expressions) }
{
    let (known, locals) = (Signatures::new(alloc), List::new(alloc));
    check(alloc, statement, catalogue, &known, &locals)
}

/// What a statement with such a fault asks for. The only error is want of memory.
fn refused_by(fault: TypeFault) -> Result<Asked, AllocError>
    ensures value { IfOk result (λ asked. asked ≡ Asked.Refused (spec.told fault)) }
    ensures memory { fault ≡ TypeFault.NoMemory → IsErr result }
{
    match fault {
        TypeFault::NoMemory => Err(AllocError),
        fault => Ok(Asked::Refused(types_refusal(fault))),
    }
}

/// Whether a statement acquires, gives up or publishes, or changes a dimension that is owned.
fn publishes(statement: &Statement) -> bool
    ensures { result ≡ spec.publishes statement.now }
{
    matches!(
        statement,
        Statement::Acquire(..)
            | Statement::Release(_)
            | Statement::Update(_)
            | Statement::Commit
            | Statement::Add(..)
            | Statement::Delete(..)
            | Statement::Move(..)
            | Statement::Rename(..)
    )
}

/// Whether a body is of a dimension that has this value.
fn holds(body: &Body, text: &Text) -> bool
    ensures { result ≡ spec.holds body.now text.now }
{
    match body {
        Body::Dim(values) => values.slot_of(text).is_some(),
        Body::Rel(_) | Body::Set(_) | Body::Var(_) => false,
    }
}

impl Known {
    fn attachment_refusal(&self, statement: &Statement) -> Option<Refusal>
        ensures { result ≡ spec.attachment_refusal self.now statement.now }
    {
        match statement {
            Statement::Attach(_) => match &self.view {
                None => None,
                Some(_) => Some(Refusal::already_attached()),
            },
            _ => match &self.view {
                None => Some(Refusal::not_attached()),
                Some(_) => None,
            },
        }
    }

    fn mode_refusal(&self, statement: &Statement) -> Option<Refusal>
        ensures { result ≡ spec.mode_refusal self.now.mode statement.now }
    {
        match self.mode {
            Mode::Multi => None,
            Mode::ReadOnly => {
                if publishes(statement) {
                    Some(Refusal::read_only())
                } else {
                    None
                }
            }
        }
    }

    fn owns(&self, catalogue: &Catalogue, named: &(Text, u16)) -> bool
        requires { Sees catalogue.now self.now }
        ensures { result ≡ spec.owns self.now named.now }
    {
        match &self.view {
            Some(view) => is_seen(catalogue, view, named.1) && view.owned(named.1),
            None => false,
        }
    }

    fn first_owned(
        &self,
        catalogue: &Catalogue,
        objects: &[(Text, u16)],
        from: usize,
    ) -> Option<Refusal>
        requires { Sees catalogue.now self.now }
        ensures { result ≡ spec.first_owned self.now (drop from objects.now) }
    {
        objects
            .iter()
            .skip(from)
            .find(|named| self.owns(catalogue, named))
            .map(|named| Refusal::acquired(named.0))
    }

    fn first_foreign(&self, catalogue: &Catalogue, objects: &[(Text, u16)]) -> Option<Refusal>
        requires { Sees catalogue.now self.now }
        ensures { result ≡ spec.first_foreign self.now objects.now }
    {
        objects
            .iter()
            .find(|named| !self.owns(catalogue, named))
            .map(|named| Refusal::not_acquired(named.0))
    }

    /// Why a statement that names these objects is refused for what the session owns.
    fn held_refusal(
        &self,
        catalogue: &Catalogue,
        statement: &Statement,
        objects: &[(Text, u16)],
    ) -> Option<Refusal>
        requires { Sees catalogue.now self.now }
        ensures { result ≡ spec.held_refusal self.now statement.now objects.now }
    {
        match statement {
            Statement::Acquire(keep, _, _) => self.first_owned(catalogue, objects, keep.len()),
            Statement::Resync(_) => self.first_owned(catalogue, objects, 0),
            Statement::Release(_)
            | Statement::Update(_)
            | Statement::Add(..)
            | Statement::Delete(..)
            | Statement::Move(..)
            | Statement::Rename(..) => self.first_foreign(catalogue, objects),
            _ => None,
        }
    }

    fn has_value(&self, catalogue: &Catalogue, fix: &Fix) -> bool
        requires { Sees catalogue.now self.now }
        ensures { result ≡ spec.has_value catalogue.now self.now fix.now }
    {
        match (catalogue.find(&fix.dimension), &self.view) {
            (Some(object), Some(view)) => {
                is_seen(catalogue, view, object) && holds(view.body(object), &fix.value)
            }
            _ => false,
        }
    }

    fn missing_among(&self, catalogue: &Catalogue, fixes: &[Fix]) -> Option<Text>
        requires { Sees catalogue.now self.now }
        ensures { result ≡ spec.missing_among catalogue.now self.now fixes.now }
    {
        fixes
            .iter()
            .find(|fix| !self.has_value(catalogue, fix))
            .map(|fix| fix.value)
    }

    /// The first fixed value in an expression that its dimension lacks.
    fn missing_in(&self, catalogue: &Catalogue, expr: &Expr) -> Option<Text>
        requires { Sees catalogue.now self.now }
        ensures { result ≡ spec.missing_in catalogue.now self.now expr.now }
    {
        match expr {
            Expr::Object(target) => self.missing_among(catalogue, target.fixes.as_slice()),
            Expr::Grouped(inner) | Expr::Not(inner) | Expr::Negative(inner) | Expr::Abs(inner) => {
                self.missing_in(catalogue, inner.get())
            }
            Expr::Joined(_, left, right) => match self.missing_in(catalogue, left.get()) {
                Some(value) => Some(value),
                None => self.missing_in(catalogue, right.get()),
            },
            Expr::If(condition, first, second) => {
                match self.missing_in(catalogue, condition.get()) {
                    Some(value) => Some(value),
                    None => match self.missing_in(catalogue, first.get()) {
                        Some(value) => Some(value),
                        None => self.missing_in(catalogue, second.get()),
                    },
                }
            }
            Expr::Na | Expr::Integer(_) | Expr::Number(_) | Expr::Text(_) | Expr::Truth(_) => None,
        }
    }

    fn missing_in_all(&self, catalogue: &Catalogue, expressions: &[Expr]) -> Option<Text>
        requires { Sees catalogue.now self.now }
        ensures { result ≡ spec.missing_in_all catalogue.now self.now expressions.now }
    {
        for expr in expressions {
            if let Some(value) = self.missing_in(catalogue, expr) {
                return Some(value);
            }
        }
        None
    }

    /// The first fixed value of a statement that its dimension lacks.
    fn missing(&self, catalogue: &Catalogue, statement: &Statement) -> Option<Text>
        requires { Sees catalogue.now self.now }
        ensures { result ≡ spec.missing catalogue.now self.now statement.now }
    {
        match statement {
            Statement::Assign(target, expr) => {
                match self.missing_among(catalogue, target.fixes.as_slice()) {
                    Some(value) => Some(value),
                    None => self.missing_in(catalogue, expr),
                }
            }
            Statement::Show(expr)
            | Statement::Report(expr)
            | Statement::Limit(_, _, Select::Top(_, expr))
            | Statement::Limit(_, _, Select::Bottom(_, expr))
            | Statement::Limit(_, _, Select::Where(expr)) => self.missing_in(catalogue, expr),
            Statement::Call(_, arguments) => self.missing_in_all(catalogue, arguments.as_slice()),
            _ => None,
        }
    }

    /// What follows the tests of names and types.
    fn checked_refusal(
        &self,
        catalogue: &Catalogue,
        statement: &Statement,
        typed: &Typed,
    ) -> Option<Refusal>
        requires { Sees catalogue.now self.now }
        ensures { result ≡ spec.checked_refusal catalogue.now self.now statement.now (Ok typed.now) }
    {
        match self.held_refusal(catalogue, statement, typed.objects.as_slice()) {
            Some(refusal) => Some(refusal),
            None => self.missing(catalogue, statement).map(Refusal::no_value),
        }
    }

    /// What a statement asks for that passed the tests of names and types.
    fn asked_typed(
        &self,
        alloc: Global,
        catalogue: &Catalogue,
        statement: &Statement,
        typed: &Typed,
    ) -> Result<Asked, AllocError>
        requires sees { Sees catalogue.now self.now }
        requires checked { spec.checked catalogue.now statement.now ≡ Ok typed.now }
        requires of_a_line { All IsOfALine typed.now.expressions }
        requires over { AreOver catalogue.now statement.now typed.now.expressions }
        ensures { IfOk result (λ asked. asked ≡ line_spec.asked_unless catalogue.now self.now
            (spec.checked_refusal catalogue.now self.now statement.now (Ok typed.now)) statement.now) }
    {
        match self.checked_refusal(catalogue, statement, typed) {
            Some(refusal) => Ok(Asked::Refused(refusal)),
            None => self.effect(alloc, catalogue, statement, typed),
        }
    }

    /// What a statement asks for whose session may give it.
    fn asked_checked(
        &self,
        alloc: Global,
        catalogue: &Catalogue,
        statement: &Statement,
    ) -> Result<Asked, AllocError>
        requires { Sees catalogue.now self.now }
        ensures { IfOk result (λ asked. asked ≡ line_spec.asked_unless catalogue.now self.now
            (spec.checked_refusal catalogue.now self.now statement.now (spec.checked catalogue.now statement.now)) statement.now) }
    {
        match checked(alloc, catalogue, statement) {
            Ok(typed) => self.asked_typed(alloc, catalogue, statement, &typed),
            Err(fault) => refused_by(fault),
        }
    }

    /// What a statement asks for, or why it is refused, by the first of these: a session
    /// that isn't attached (15), or for AW ATTACH one that is (16); a session that is attached for
    /// reading alone (23); an unknown name (2), an object of a wrong kind (3) or a name that comes
    /// twice (7); an object that the session owns (20) or doesn't own (19); types (4) or dimensions (5)
    /// that don't fit, or too much weight (14); a fixed value that its dimension lacks (6); what the
    /// run of its expressions refuses (14, 8, 9, 10, 6); and a statement that doesn't run yet (1).
    /// The only error is want of memory.
    pub(crate) fn asked_by(
        &self,
        alloc: Global,
        catalogue: &Catalogue,
        statement: &Statement,
    ) -> Result<Asked, AllocError>
        requires { Sees catalogue.now self.now }
        ensures { IfOk result (λ asked. asked ≡ line_spec.asked_by catalogue.now self.now (Ok statement.now)) }
    {
        if let Some(refusal) = self.attachment_refusal(statement) {
            return Ok(Asked::Refused(refusal));
        }
        match self.mode_refusal(statement) {
            Some(refusal) => Ok(Asked::Refused(refusal)),
            None => self.asked_checked(alloc, catalogue, statement),
        }
    }
}
