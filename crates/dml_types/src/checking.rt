ghost use Rattle.std.specs.Prelude.{◌≡◌, ◌∷◌, ◌++◌, map, Ok, IfOk, All};
ghost use Rattle.std.specs.List.{filter_map};
ghost use Rattle.dml_kinds.specs.Meanings.{names_in};
ghost use Rattle.dml_kinds.specs.Names as names;
ghost use Rattle.dml_kinds.specs.Checking.{IsAnswer};
ghost use Rattle.dml_kinds.specs.FreeDimensions.{first_appearances};
ghost use Rattle.dml_kinds.specs.TreeDimensions.{tree_dimensions};
ghost use Rattle.dml_types.specs.Statements as statements;
ghost use Rattle.dml_types.specs.inside.Parts as parts;
ghost use Rattle.dml_types.specs.Checking as spec;

use crate::expressions::expressions;
use crate::measuring::{Found, parts_of, parts_refusal, typed_list};
use crate::own_names::{own_group, own_uses};
use aw_cell::Text;
use aw_lists::List;
use aw_schema::Catalogue;
use dml_kinds::{
    Locals, Scope, Signatures, TypeFault, TypedExpr, Use, push_targets, push_value_uses,
};
use dml_tree::{Expr, Statement, Target};
use std::alloc::{AllocError, Global};

/// What an accepted statement is (docs/LANGUAGE.md, "Types").
#[derive(Debug, Drop)]
pub struct Typed {
    /// The objects that its names outside of expressions mean, in the order written: each name as
    /// defined, and the object's number. A local is none.
    pub objects: List<(Text, u16)>,
    /// Its expressions in the order written. A valueset that LIMIT selects is none.
    pub expressions: List<TypedExpr>,
}

/// What is answered of a statement.
#[tactic(auto, using(crate::proofs::StatementAnswers::settled_statement, crate::proofs::StatementAnswers::refused_statement))]
fn answered(alloc: Global, scope: &Scope, statement: &Statement) -> Result<Typed, TypeFault>
    ensures { IsAnswer result (spec.statement_answer (names_in scope.now.catalogue.now scope.now.known.now scope.now.locals.now) scope.now.known.now scope.now.locals.now statement.now) }
{
    let exprs = expressions(alloc, scope, statement)?;
    let uses = own_uses(alloc, statement)?;
    match refused_names(alloc, scope, statement, &uses, &exprs) {
        Ok(Some(fault)) => Err(fault),
        Ok(None) => found(alloc, scope, statement, &uses, &exprs),
        Err(_) => Err(TypeFault::NoMemory),
    }
}

/// Whether a statement is accepted where `catalogue` has these objects, whose texts mean what
/// `known` tells of them, and the program has these locals, and what it is then. An object with a
/// text of which nothing is told is unknown. Else the first refusal in the order of TypeFault, each
/// for the first place from the left (docs/LANGUAGE.md, "Order of refusals").
pub fn check(
    alloc: Global,
    statement: &Statement,
    catalogue: &Catalogue,
    known: &Signatures,
    locals: &Locals,
) -> Result<Typed, TypeFault>
    ensures answer { IsAnswer result (spec.statement_answer (names_in catalogue.now known.now locals.now) known.now locals.now statement.now) }
    ensures dimensions { IfOk result (λ typed. All (λ one. one.dimensions ≡ first_appearances (tree_dimensions one.tree)) typed.expressions) }
{
    let scope = Scope {
        catalogue,
        known,
        locals,
    };
    answered(alloc, &scope, statement)
}

/// What is answered of a statement with these names outside of expressions, and these expressions,
/// where no name is refused.
fn found(
    alloc: Global,
    scope: &Scope,
    statement: &Statement,
    own: &[Use],
    exprs: &[&Expr],
) -> Result<Typed, TypeFault>
    ensures { IsAnswer result (parts.parts_answer (names_in scope.now.catalogue.now scope.now.known.now scope.now.locals.now) scope.now.known.now scope.now.locals.now statement.now own.now (map (λ e. e.now) exprs.now) (map (parts.found_of (names_in scope.now.catalogue.now scope.now.known.now scope.now.locals.now)) (map (λ e. e.now) exprs.now))) }
{
    match parts_of(alloc, scope, exprs) {
        Ok(parts) => settled(alloc, scope, statement, own, exprs, parts.as_slice()),
        Err(_) => Err(TypeFault::NoMemory),
    }
}

/// What is answered by what was found of these expressions of a statement.
fn settled(
    alloc: Global,
    scope: &Scope,
    statement: &Statement,
    own: &[Use],
    exprs: &[&Expr],
    all: &[Found],
) -> Result<Typed, TypeFault>
    ensures { IsAnswer result (parts.parts_answer (names_in scope.now.catalogue.now scope.now.known.now scope.now.locals.now) scope.now.known.now scope.now.locals.now statement.now own.now (map (λ e. e.now) exprs.now) all.now) }
{
    match parts_refusal(alloc, scope, statement, all) {
        Ok(Some(fault)) => Err(fault),
        Ok(None) => accepted(alloc, scope, own, exprs, all),
        Err(_) => Err(TypeFault::NoMemory),
    }
}

/// What an accepted statement is.
fn accepted(
    alloc: Global,
    scope: &Scope,
    own: &[Use],
    exprs: &[&Expr],
    all: &[Found],
) -> Result<Typed, TypeFault>
    ensures { IsAnswer result (Ok (parts.typed_parts (names_in scope.now.catalogue.now scope.now.known.now scope.now.locals.now) scope.now.locals.now own.now (map (λ e. e.now) exprs.now) all.now)) }
{
    let objects = objects(alloc, scope, own)?;
    match typed_list(alloc, scope, exprs, all) {
        Ok(expressions) => Ok(Typed {
            objects,
            expressions,
        }),
        Err(_) => Err(TypeFault::NoMemory),
    }
}

/// The names of these expressions with their fixed values, in the order in which they stand.
fn targets_of<'a>(alloc: Global, exprs: &[&'a Expr]) -> Result<Vec<&'a Target>, AllocError>
    ensures { IfOk result (λ targets. map (λ target. target.now) targets.items ≡ names.targets_of_all (map (λ e. e.now) exprs.now)) }
{
    let mut targets = Vec::new(alloc);
    for expr in exprs {
        push_targets(*expr, &mut targets)?;
    }
    Ok(targets)
}

/// What refuses the names of a statement with these expressions.
fn refused_names(
    alloc: Global,
    scope: &Scope,
    statement: &Statement,
    own: &[Use],
    exprs: &[&Expr],
) -> Result<Option<TypeFault>, AllocError>
    ensures { IfOk result (λ refusal. refusal ≡ names.names_refusal (names_in scope.now.catalogue.now scope.now.known.now scope.now.locals.now) (own.now ++ names.uses (names.targets_of_all (map (λ e. e.now) exprs.now))) (statements.own_group statement.now ∷ names.groups (names.targets_of_all (map (λ e. e.now) exprs.now)))) }
{
    let targets = targets_of(alloc, exprs)?;
    let group = own_group(alloc, statement)?;
    let mut uses = Vec::from_slice(alloc, own)?;
    push_value_uses(&targets, &mut uses)?;
    scope.names_refusal(alloc, &uses, &group, &targets)
}

/// The objects that these names mean.
fn objects_of(alloc: Global, scope: &Scope, uses: &[Use]) -> Result<Vec<(Text, u16)>, AllocError>
    ensures { IfOk result (λ all. all.items ≡ filter_map (λ needed. names.named_object (names_in scope.now.catalogue.now scope.now.known.now scope.now.locals.now) needed.name) uses.now) }
{
    uses.iter()
        .filter_map(|needed| scope.named_object(&needed.name))
        .collect(alloc)
}

fn objects(alloc: Global, scope: &Scope, uses: &[Use]) -> Result<List<(Text, u16)>, AllocError>
    ensures { IfOk result (λ all. all ≡ filter_map (λ needed. names.named_object (names_in scope.now.catalogue.now scope.now.known.now scope.now.locals.now) needed.name) uses.now) }
{
    let all = objects_of(alloc, scope, uses)?;
    Ok(List::from_vec(all))
}
