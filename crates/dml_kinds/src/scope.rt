ghost use Rattle.std.specs.Prelude.{◌≡◌, position};
ghost use Rattle.std.specs.List.{list_all};
ghost use Rattle.std.specs.Option.{option_copied};
ghost use Rattle.aw_cell.specs.Names.{same_word};
ghost use Rattle.dml_kinds.specs.Meanings as spec;

use crate::meaning::{Known, Meaning};
use crate::signature::{Signature, Signatures};
use aw_cell::{Kind, Operator, Text, is_same_word};
use aw_lists::List;
use aw_schema::{Catalogue, DefKind};

/// The arguments of a program and then its variables, in order, each with its kind. On a session's
/// line there are none.
pub type Locals = List<(Text, Kind)>;

/// What names mean where a statement or an expression stands: locals, and behind them the objects of
/// a catalogue.
#[derive(Drop)]
pub struct Scope<'a> {
    pub catalogue: &'a Catalogue,
    pub known: &'a Signatures,
    pub locals: &'a Locals,
}

impl<'a> Scope<'a> {
    /// What a name means, or `None` where nothing is known of it.
    #[tactic(auto, unfolding(crate::specs::Meanings::names_in))]
    pub fn known(&self, name: &Text) -> Option<Known>
        ensures { result ≡ spec.names_in self.now.catalogue.now self.now.known.now self.now.locals.now name.now }
    {
        match self.local(name) {
            Some(known) => Some(known),
            None => match self.catalogue.find(name) {
                Some(object) => self.object(object),
                None => None,
            },
        }
    }

    /// The first local of this name.
    fn local(&self, name: &Text) -> Option<Known>
        ensures { result ≡ spec.local_named self.now.locals.now name.now }
    {
        match local_place(self.locals.as_slice(), name) {
            Some(place) => match self.locals.get(place) {
                Some(local) => Some(Known {
                    name: local.0,
                    meaning: Meaning::Local(place, local.1),
                }),
                None => None,
            },
            None => None,
        }
    }

    /// What an object is, where its text's meaning is known.
    fn object(&self, object: u16) -> Option<Known>
        ensures { result ≡ spec.object_known self.now.catalogue.now self.now.known.now object }
    {
        match self.catalogue.def(object) {
            Some(def) => match self.meaning(object, &def.kind) {
                Some(meaning) => Some(Known {
                    name: def.name,
                    meaning,
                }),
                None => None,
            },
            None => None,
        }
    }

    /// What an object of this kind means.
    fn meaning(&self, object: u16, kind: &DefKind) -> Option<Meaning>
        ensures { result ≡ spec.meaning_of self.now.known.now object kind.now }
    {
        match kind {
            DefKind::Dimension => Some(Meaning::Dimension(object)),
            DefKind::Relation { target, base } => Some(Meaning::Relation(object, *target, *base)),
            DefKind::Valueset { dimension } => Some(Meaning::Valueset(object, *dimension)),
            DefKind::Variable { kind, dimensions } => {
                Some(Meaning::Variable(object, *kind, *dimensions))
            }
            DefKind::Formula { .. } => formula(object, self.known.get(object)),
            DefKind::Program { .. } => program(object, self.known.get(object)),
            DefKind::Aggmap { .. } => aggmap(object, self.known.get(object)),
        }
    }
}

/// The place of the first local of this name.
fn local_place(locals: &[(Text, Kind)], name: &Text) -> Option<usize>
    ensures { result ≡ position (λ local. same_word name.now local.0) locals.now }
{
    locals.iter().position(|local| has_name(local, name))
}

fn has_name(local: &(Text, Kind), name: &Text) -> bool
    ensures { result ≡ same_word name.now local.now.0 }
{
    is_same_word(name.bytes(), local.0.bytes())
}

fn formula(object: u16, signature: Option<&Signature>) -> Option<Meaning>
    ensures { result ≡ spec.formula_meaning object (option_copied signature.entry) }
{
    match signature {
        Some(
            Signature::Formula {
                kind,
                dimensions,
                weight,
            },
        ) => Some(Meaning::Formula(object, *kind, *dimensions, *weight)),
        _ => None,
    }
}

fn program(object: u16, signature: Option<&Signature>) -> Option<Meaning>
    ensures { result ≡ spec.program_meaning object (option_copied signature.entry) }
{
    match signature {
        Some(Signature::Program { .. }) => Some(Meaning::Program(object)),
        _ => None,
    }
}

fn aggmap(object: u16, signature: Option<&Signature>) -> Option<Meaning>
    ensures { result ≡ spec.aggmap_meaning object (option_copied signature.entry) }
{
    match signature {
        Some(Signature::Map { lines }) => Some(map_of(object, lines.as_slice())),
        _ => None,
    }
}

/// Whether each line has SUM, MIN or MAX.
fn all_combine(lines: &[(u16, Operator)]) -> bool
    ensures { result ≡ list_all (λ line. spec.combines line.1) lines.now }
{
    lines.iter().all(|line| combines(line.1))
}

fn map_of(object: u16, lines: &[(u16, Operator)]) -> Meaning
    ensures { result ≡ spec.map_of object lines.now }
{
    if all_combine(lines) {
        return Meaning::Aggregation(object);
    }
    if lines.len() == 1 {
        Meaning::Allocation(object)
    } else {
        Meaning::Unfit(object)
    }
}

fn combines(operator: Operator) -> bool
    ensures { result ≡ spec.combines operator }
{
    matches!(operator, Operator::Sum | Operator::Min | Operator::Max)
}
