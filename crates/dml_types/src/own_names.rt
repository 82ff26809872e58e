ghost use Rattle.std.specs.Prelude.{◌≡◌, ◌++◌, ◌∷◌, [], map, IfOk, OnOk};
ghost use Rattle.dml_kinds.specs.Names.{use_as};
ghost use Rattle.dml_kinds.specs.declared.meaning.Role.TheVariants as role;
ghost use Rattle.dml_types.specs.Statements as spec;

use aw_cell::Text;
use dml_kinds::{Role, Use, fixed_names, push_uses};
use dml_tree::{Select, Statement, Target};
use std::alloc::{AllocError, Global};

fn used_as(role: Role, name: &Text) -> Use
    ensures { result ≡ use_as role name.now }
{
    Use { name: *name, role }
}

/// The names of three lists, one behind the other.
fn joined(
    alloc: Global,
    plain: &[Text],
    fresh: &[Text],
    same: &[Text],
) -> Result<Vec<Text>, AllocError>
    ensures { IfOk result (λ names. names.items ≡ plain.now ++ fresh.now ++ same.now) }
{
    let mut names = Vec::from_slice(alloc, plain)?;
    names.extend_from_slice(fresh)?;
    names.extend_from_slice(same)?;
    Ok(names)
}

/// The names outside of expressions that may not stand twice.
pub(crate) fn own_group(alloc: Global, statement: &Statement) -> Result<Vec<Text>, AllocError>
    ensures { IfOk result (λ names. names.items ≡ spec.own_group statement.now) }
{
    match statement {
        Statement::Acquire(plain, fresh, same) => {
            joined(alloc, plain.as_slice(), fresh.as_slice(), same.as_slice())
        }
        Statement::Resync(names)
        | Statement::Release(names)
        | Statement::Revert(names)
        | Statement::Update(names) => Vec::from_slice(alloc, names.as_slice()),
        Statement::Assign(target, _) => fixed_names(alloc, target.fixes.as_slice()),
        _ => Ok(Vec::new(alloc)),
    }
}

fn kept_uses(alloc: Global, names: &[Text]) -> Result<Vec<Use>, AllocError>
    ensures { IfOk result (λ uses. uses.items ≡ map (use_as role.Kept) names.now) }
{
    names
        .iter()
        .map(|name| used_as(Role::Kept, name))
        .collect(alloc)
}

fn assigned_uses(alloc: Global, target: &Target) -> Result<Vec<Use>, AllocError>
    ensures { IfOk result (λ uses. uses.items ≡ spec.assigned_uses target.now) }
{
    let mut uses = Vec::new(alloc);
    push_uses(Role::Assigned, Role::AssignedAt, target, &mut uses)?;
    Ok(uses)
}

fn limit_uses(alloc: Global, name: &Text, what: &Select) -> Result<Vec<Use>, AllocError>
    ensures { IfOk result (λ uses. uses.items ≡ use_as role.Limited name.now ∷ spec.select_uses what.now) }
{
    let limited = used_as(Role::Limited, name);
    match what {
        Select::Kin(_, relation) => {
            Vec::from_slice(alloc, &[limited, used_as(Role::Relation, relation)])
        }
        _ => Vec::from_slice(alloc, &[limited]),
    }
}

fn allocate_uses(
    alloc: Global,
    source: &Text,
    basis: &Text,
    target: &Text,
    map: &Text,
) -> Result<Vec<Use>, AllocError>
    ensures { IfOk result (λ uses. uses.items ≡ use_as role.Any source.now ∷ use_as role.Any basis.now ∷ use_as role.Any target.now ∷ use_as role.Allocation map.now ∷ []) }
{
    let variables = [
        used_as(Role::Any, source),
        used_as(Role::Any, basis),
        used_as(Role::Any, target),
        used_as(Role::Allocation, map),
    ];
    Vec::from_slice(alloc, &variables)
}

/// The names outside of expressions, in the order in which they stand, with their roles.
pub(crate) fn own_uses(alloc: Global, statement: &Statement) -> Result<Vec<Use>, AllocError>
    ensures { IfOk result (λ uses. uses.items ≡ spec.own_uses statement.now) }
{
    match statement {
        Statement::Acquire(plain, fresh, same) => {
            let names = joined(alloc, plain.as_slice(), fresh.as_slice(), same.as_slice())?;
            kept_uses(alloc, &names)
        }
        Statement::Resync(names)
        | Statement::Release(names)
        | Statement::Revert(names)
        | Statement::Update(names) => kept_uses(alloc, names.as_slice()),
        Statement::Add(name, _, _)
        | Statement::Delete(name, _)
        | Statement::Move(name, _, _)
        | Statement::Rename(name, _, _) => {
            Vec::from_slice(alloc, &[used_as(Role::Dimension, name)])
        }
        Statement::Assign(target, _) => assigned_uses(alloc, target),
        Statement::Limit(name, _, what) => limit_uses(alloc, name, what),
        Statement::Aggregate(variable, map) => {
            let both = [
                used_as(Role::Any, variable),
                used_as(Role::Aggregation, map),
            ];
            Vec::from_slice(alloc, &both)
        }
        Statement::Allocate(source, basis, target, map) => {
            allocate_uses(alloc, source, basis, target, map)
        }
        Statement::Call(program, _) => Vec::from_slice(alloc, &[used_as(Role::Program, program)]),
        _ => Ok(Vec::new(alloc)),
    }
}
