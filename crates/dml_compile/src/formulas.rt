ghost use Rattle.std.specs.Prelude.{◌≡◌, ◌==◌, ◌∷◌, [], find, reverse, IfOk, OnOk, OnErr};
ghost use Rattle.std.specs.Option.{option_copied};
ghost use Rattle.dml_compile.specs.FormulasView.{formula_tree};
ghost use Rattle.dml_compile.specs.Objects.{object_kinds};
ghost use Rattle.dml_compile.specs.inside.Emitted.{formula_code};
ghost use Rattle.dml_compile.specs.inside.Library.{IsCodeOf};

use crate::compiling::compiled;
use crate::objects::object_kinds;
use aw_lists::List;
use aw_schema::Catalogue;
use dml_exec::{Code, Kinds};
use dml_kinds::TypedExpr;
use std::alloc::{AllocError, Global};
use std::marker::Model;

/// A formula with its code.
#[derive(Drop)]
pub struct Formula {
    /// Its number.
    pub object: u16,
    /// Its expression.
    pub expression: TypedExpr,
    /// The code of its expression.
    pub code: Code,
}

/// The formulas of a catalogue with their code, and the kinds of its objects. Contracts see the kinds,
/// and the expressions, the last one first.
#[derive(Drop)]
pub struct Formulas {
    pub(crate) kinds: Kinds,
    pub(crate) formulas: Vec<Formula>,
}

impl Model for Formulas {
    ghost use Rattle.std.specs.Prelude.{◌≡◌, [], reverse};
    ghost use Rattle.std.specs.Coded.{codes};
    ghost use Rattle.dml_kinds.specs.contracts.tree.Tree as tree;
    ghost use Rattle.dml_compile.specs.FormulasView.{FormulasView};
    ghost use Rattle.dml_compile.specs.inside.Library.{trees_of, AreCompiled};

    ghost Value = { FormulasView };

    ghost coded = { Prim.hlevel (codes, tree.the_row.coded) };

    ghost view = { λ library. record { objects = library.kinds.objects; trees = trees_of (reverse library.formulas.items) } };

    ghost invariant = { λ library. (library.kinds.locals ≡ []) × AreCompiled (reverse library.formulas.items) };
}

/// The last formula with a number.
fn found(formulas: &[Formula], object: u16) -> Option<&Formula>
    ensures { option_copied result ≡ find (λ formula. formula.object == object) (reverse formulas.now) }
{
    formulas
        .iter()
        .rev()
        .find(|formula| formula.object == object)
}

impl Formulas {
    /// No formulas, of a catalogue with these objects.
    pub fn new(alloc: Global, catalogue: &Catalogue) -> Result<Formulas, AllocError>
        ensures objects { IfOk result (λ library. library.objects ≡ object_kinds catalogue.now) }
        ensures trees { IfOk result (λ library. library.trees ≡ []) }
    {
        let objects = object_kinds(alloc, catalogue)?;
        Ok(Formulas {
            kinds: Kinds {
                objects: List::from_vec(objects),
                locals: List::new(alloc),
            },
            formulas: Vec::new(alloc),
        })
    }

    /// The code of a formula, or `None` where it is unknown.
    pub(crate) fn code(&self, object: u16) -> Option<&Code>
        ensures { IsCodeOf (formula_code self.now.trees object) (option_copied result) }
    {
        match found(&self.formulas, object) {
            Some(formula) => Some(&formula.code),
            None => None,
        }
    }

    /// Notes a formula, whose expression names only formulas that were noted before. Want of memory
    /// leaves all as it was.
    pub fn note(
        &mut self,
        alloc: Global,
        object: u16,
        expression: TypedExpr,
    ) -> Result<(), AllocError>
        ensures objects { self.new.objects ≡ self.old.objects }
        ensures ok { OnOk result (self.new.trees ≡ formula_tree object expression ∷ self.old.trees) }
        ensures err { OnErr result (self.new.trees ≡ self.old.trees) }
    {
        let code = compiled(alloc, &expression, self)?;
        self.formulas.push(Formula {
            object,
            expression,
            code,
        })?;
        Ok(())
    }
}
