ghost use Rattle.std.specs.Prelude.{◌≡◌, ℕ, IfOk, IsErr, IsTrue, None, OnErr, Some, cond, find, is_none, length, map, nat_lt, not, position};
ghost use Rattle.aw_schema.specs.Definitions.{is_spellable, object_of};
ghost use Rattle.dml_tree.specs.declared.definition.Defined.TheVariants.{Formula};
ghost use Rattle.ses_step.specs.Lines as line_spec;
ghost use Rattle.ses_step.specs.Refusing as refusing;
ghost use Rattle.script_meaning.specs.Defining as spec;
ghost use Rattle.script_meaning.specs.DefinitionLines as lines_spec;
ghost use Rattle.script_play.specs.inside.Drafts.{CanBeDrafted, DraftsLines, DraftsSo, DraftsTree, name_there, refusal_told, unbuilt_refusal};

use aw_cell::Text;
use aw_lists::{Coord, List};
use aw_schema::{Catalogue, Def, DefKind, SchemaFault};
use dml_kinds::{Signatures, TypeFault, check_formula};
use dml_lines::{ParseFault, definition_in};
use dml_tree::{Defined, Definition as Tree, Expr};
use ses_report::Refusal;
use ses_step::{
    Definition, NamedKind, keeps_form, kept_kind, opens_block, parse_refusal, types_refusal,
};
use std::alloc::{AllocError, Global};

/// The number of the object that has a name; where none has, one that is no object's.
fn number_of(drafted: &Catalogue, name: &Text) -> u16
    ensures { result ≡ spec.number_of drafted.now name.now }
{
    drafted.find(name).unwrap_or(65_535)
}

fn numbers_of(alloc: Global, drafted: &Catalogue, names: &[Text]) -> Result<Vec<u16>, AllocError>
    ensures { IfOk result (λ numbers. numbers.items ≡ map (spec.number_of drafted.now) names.now) }
{
    names
        .iter()
        .map(|name| number_of(drafted, name))
        .collect(alloc)
}

/// The dimensions that have these names, or `None` where they are more than 6.
fn dimensions_of(
    alloc: Global,
    drafted: &Catalogue,
    names: &[Text],
) -> Result<Option<Coord>, AllocError>
    ensures { IfOk result (λ dimensions. dimensions ≡ cond (nat_lt 6 (length names.now)) None (Some (map (spec.number_of drafted.now) names.now))) }
{
    let numbers = numbers_of(alloc, drafted, names)?;
    Ok(Coord::of(numbers.as_slice()))
}

/// The kind with numbers for its names, or `None` where it has more than 6 dimensions.
fn numbered(
    alloc: Global,
    drafted: &Catalogue,
    kind: &NamedKind,
) -> Result<Option<DefKind>, AllocError>
    ensures { IfOk result (λ found. found ≡ cond (nat_lt 6 (length (spec.names_in kind.now))) None (Some (spec.kind_of drafted.now kind.now))) }
{
    match kind {
        NamedKind::Dimension => Ok(Some(DefKind::Dimension)),
        NamedKind::Relation { target, base } => Ok(Some(DefKind::Relation {
            target: number_of(drafted, target),
            base: number_of(drafted, base),
        })),
        NamedKind::Valueset { dimension } => Ok(Some(DefKind::Valueset {
            dimension: number_of(drafted, dimension),
        })),
        NamedKind::Variable { kind, dimensions } => {
            match dimensions_of(alloc, drafted, dimensions.as_slice())? {
                Some(dimensions) => Ok(Some(DefKind::Variable {
                    kind: *kind,
                    dimensions,
                })),
                None => Ok(None),
            }
        }
    }
}

/// The first of these names that no object has.
fn undefined_among(drafted: &Catalogue, names: &[Text]) -> Option<Text>
    ensures { result ≡ find (λ name. is_none (object_of drafted.now name)) names.now }
{
    names
        .iter()
        .copied()
        .find(|name| drafted.find(name).is_none())
}

/// The first name in a kind that no object has.
fn first_undefined(drafted: &Catalogue, kind: &NamedKind) -> Option<Text>
    ensures { result ≡ spec.first_undefined drafted.now kind.now }
{
    match kind {
        NamedKind::Dimension => None,
        NamedKind::Relation { target, base } => undefined_among(drafted, &[*target, *base]),
        NamedKind::Valueset { dimension } => undefined_among(drafted, &[*dimension]),
        NamedKind::Variable { dimensions, .. } => undefined_among(drafted, dimensions.as_slice()),
    }
}

/// What a catalogue finds wrong with a definition, as a refusal.
fn told(
    drafted: &Catalogue,
    definition: &Definition,
    fault: SchemaFault,
) -> Result<Refusal, AllocError>
    ensures { IfOk result (λ refusal. Some refusal ≡ refusal_told drafted.now definition.now fault) }
{
    match fault {
        SchemaFault::Repeat(name) => Ok(Refusal::repeated(name)),
        SchemaFault::TooMany => Ok(Refusal::too_many()),
        SchemaFault::Unknown(_) => {
            let name = first_undefined(drafted, &definition.kind);
            Ok(Refusal::unknown(name.unwrap_or(Text::of(b"").unwrap())))
        }
        SchemaFault::WrongKind(name) => Ok(Refusal::wrong_kind(name)),
        SchemaFault::NoMemory => Err(AllocError),
    }
}

/// The name as it was defined, where an object has it.
#[tactic(auto, using(crate::proofs::Drafting::there_found))]
fn defined_as(drafted: &Catalogue, name: &Text) -> Option<Text>
    ensures { result ≡ name_there drafted.now name.now }
{
    let there = drafted.def(drafted.find(name)?)?;
    Some(there.name)
}

/// Drafts a definition as the next object, or tells why it is refused and leaves the drafts as they
/// were. The first of these that applies decides: its name is there (7); there are 4,096 objects, or
/// more than 6 dimensions are written (14); a name in it isn't defined (2, the first as it was
/// written); an object in it is no dimension (3, the first); a dimension comes twice in a variable
/// (7). See docs/LANGUAGE.md, "Refusals".
pub fn draft_definition(
    alloc: Global,
    drafted: &mut Catalogue,
    definition: &Definition,
) -> Result<Option<Refusal>, AllocError>
    requires { IsTrue (is_spellable (spec.def_of drafted.old definition.now)) }
    ensures ok { IfOk result (λ refusal. DraftsSo definition.now refusal drafted.old drafted.new) }
    ensures err { OnErr result (drafted.new ≡ drafted.old) }
{
    if let Some(name) = defined_as(drafted, &definition.name) {
        return Ok(Some(Refusal::repeated(name)));
    }
    let kind = match numbered(alloc, drafted, &definition.kind)? {
        Some(kind) => kind,
        None => return Ok(Some(Refusal::too_many())),
    };
    let name = definition.name;
    match drafted.check(Def { name, kind }) {
        Ok(_) => Ok(None),
        Err(fault) => match told(drafted, definition, fault) {
            Ok(refusal) => Ok(Some(refusal)),
            Err(full) => Err(full),
        },
    }
}

/// Whether lines of a definition are a block.
fn is_block(lines: &[List<u8>]) -> bool
    ensures { result ≡ lines_spec.is_block lines.now }
{
    match lines.first() {
        Some(first) => opens_block(first.as_slice()),
        None => false,
    }
}

/// A refusal at a line, which has its number in a block alone.
fn at_line(block: bool, line: u32, refusal: Refusal) -> Refusal
    ensures { result ≡ lines_spec.at_line block line refusal }
{
    if block {
        refusal.in_line(line)
    } else {
        refusal.in_line(0)
    }
}

/// The place of the first line that is too long, or has a byte that no line has.
fn bad_line(lines: &[List<u8>]) -> Option<usize>
    ensures { result ≡ position (λ text. not (line_spec.keeps_form text)) lines.now }
{
    lines.iter().position(|text| !keeps_form(text.as_slice()))
}

/// Why the lines of a definition are refused for their form.
fn form_refusal(lines: &[List<u8>]) -> Option<Refusal>
    ensures { result ≡ lines_spec.form_refusal lines.now }
{
    match bad_line(lines) {
        Some(at) => {
            let line = at.saturating_add(1).min(4_294_967_295) as u32;
            Some(at_line(is_block(lines), line, Refusal::bad_line()))
        }
        None => None,
    }
}

/// Why a definition of these lines is refused behind a session's line.
pub fn late(lines: &[List<u8>]) -> Refusal
    ensures { result ≡ lines_spec.late lines.now }
{
    match form_refusal(lines) {
        Some(refusal) => refusal,
        None => Refusal::definitions_closed(),
    }
}

fn fault_refusal(block: bool, fault: ParseFault) -> Refusal
    ensures { result ≡ lines_spec.fault_refusal block fault }
{
    if block {
        parse_refusal(fault)
    } else {
        parse_refusal(fault).in_line(0)
    }
}

/// Why lines with such a fault are refused. The only error is want of memory.
fn syntax_refusal(block: bool, fault: ParseFault) -> Result<Refusal, AllocError>
    ensures value { IfOk result (λ refusal. refusal ≡ lines_spec.fault_refusal block fault) }
    ensures memory { fault ≡ ParseFault.NoMemory → IsErr result }
{
    match fault {
        ParseFault::NoMemory => Err(AllocError),
        fault => Ok(fault_refusal(block, fault)),
    }
}

/// Why no object can have this name.
fn name_refusal(drafted: &Catalogue, name: &Text) -> Option<Refusal>
    ensures { result ≡ lines_spec.name_refusal drafted.now name.now }
{
    if let Some(name) = defined_as(drafted, name) {
        return Some(Refusal::repeated(name));
    }
    if drafted.len() >= 4096 {
        return Some(Refusal::too_many());
    }
    None
}

/// Why a formula with such a fault is refused. The only error is want of memory.
fn formula_refusal(fault: TypeFault) -> Result<Refusal, AllocError>
    ensures value { IfOk result (λ refusal. refusal ≡ refusing.told fault) }
    ensures memory { fault ≡ TypeFault.NoMemory → IsErr result }
{
    match fault {
        TypeFault::NoMemory => Err(AllocError),
        fault => Ok(types_refusal(fault)),
    }
}

/// Why a formula isn't defined: what is wrong with it, or that none can be defined yet.
fn unbuilt_formula(
    alloc: Global,
    drafted: &Catalogue,
    name: &Text,
    expr: &Expr,
) -> Result<Refusal, AllocError>
    ensures { IfOk result (λ refusal. (from to : ℕ) → refusal ≡ lines_spec.unbuilt drafted.now name.now (Formula expr.now from to)) }
{
    if let Some(refusal) = name_refusal(drafted, name) {
        return Ok(refusal);
    }
    match check_formula(alloc, expr, drafted, &Signatures::new(alloc)) {
        Ok(_) => Ok(Refusal::no_form()),
        Err(fault) => match formula_refusal(fault) {
            Ok(refusal) => Ok(refusal),
            Err(full) => Err(full),
        },
    }
}

/// Why a program or an aggmap isn't defined: its name, or that none can be defined yet.
fn unbuilt_block(drafted: &Catalogue, name: &Text) -> Refusal
    ensures { result ≡ lines_spec.unbuilt_block drafted.now name.now }
{
    match name_refusal(drafted, name) {
        Some(refusal) => refusal.in_line(1),
        None => Refusal::no_form(),
    }
}

/// Why what lines define is refused whatever it is, since none can be defined yet.
fn unbuilt(alloc: Global, drafted: &Catalogue, tree: &Tree) -> Result<Option<Refusal>, AllocError>
    ensures { IfOk result (λ refusal. refusal ≡ unbuilt_refusal drafted.now tree.now) }
{
    match &tree.what {
        Defined::Formula(expr, ..) => match unbuilt_formula(alloc, drafted, &tree.name, expr) {
            Ok(refusal) => Ok(Some(refusal)),
            Err(full) => Err(full),
        },
        Defined::Program(_) | Defined::AggMap(_) => Ok(Some(unbuilt_block(drafted, &tree.name))),
        Defined::Dimension | Defined::Relation(..) | Defined::ValueSet(_) | Defined::Variable(..) =>
            Ok(None),
    }
}

/// Drafts what lines define, of a kind that can be defined, or tells why it is refused.
fn draft_kept(
    alloc: Global,
    drafted: &mut Catalogue,
    tree: Tree,
) -> Result<Option<Refusal>, AllocError>
    requires form { CanBeDrafted tree }
    requires built { unbuilt_refusal drafted.old tree ≡ None }
    ensures ok { IfOk result (λ refusal. DraftsTree tree refusal drafted.old drafted.new) }
    ensures err { OnErr result (drafted.new ≡ drafted.old) }
{
    let Tree { name, what } = tree;
    let kind = match kept_kind(what) {
        Some(kind) => kind,
        None => unreachable!(),
    };
    match draft_definition(alloc, drafted, &Definition { name, kind }) {
        Ok(refusal) => Ok(refusal),
        Err(full) => Err(full),
    }
}

/// Drafts what lines define, or tells why it is refused.
fn draft_tree(
    alloc: Global,
    drafted: &mut Catalogue,
    tree: Tree,
) -> Result<Option<Refusal>, AllocError>
    requires { CanBeDrafted tree }
    ensures ok { IfOk result (λ refusal. DraftsTree tree refusal drafted.old drafted.new) }
    ensures err { OnErr result (drafted.new ≡ drafted.old) }
{
    if let Some(refusal) = unbuilt(alloc, drafted, &tree)? {
        return Ok(Some(refusal));
    }
    match draft_kept(alloc, drafted, tree) {
        Ok(refusal) => Ok(refusal),
        Err(full) => Err(full),
    }
}

/// Drafts what these lines define as the next object, or tells why they are refused and leaves the
/// drafts as they were: for the form of a line (27), for syntax (1) or a word that no program has (24),
/// and then for what is defined. The only error is want of memory. See docs/LANGUAGE.md, "Refusals".
pub fn draft_lines(
    alloc: Global,
    drafted: &mut Catalogue,
    lines: &List<List<u8>>,
) -> Result<Option<Refusal>, AllocError>
    ensures ok { IfOk result (λ refusal. DraftsLines lines.now refusal drafted.old drafted.new) }
    ensures err { OnErr result (drafted.new ≡ drafted.old) }
{
    if let Some(refusal) = form_refusal(lines.as_slice()) {
        return Ok(Some(refusal));
    }
    match definition_in(alloc, lines) {
        Ok(tree) => match draft_tree(alloc, drafted, tree) {
            Ok(refusal) => Ok(refusal),
            Err(full) => Err(full),
        },
        Err(fault) => match syntax_refusal(is_block(lines.as_slice()), fault) {
            Ok(refusal) => Ok(Some(refusal)),
            Err(full) => Err(full),
        },
    }
}
