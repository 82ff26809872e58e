ghost use Rattle.std.specs.Prelude.{◌≡◌, ◌≤◌, length, IsTrue};
ghost use Rattle.dml_forms.specs.inside.Front.{IsLongestFront};
ghost use Rattle.dml_tree.specs.Marks as marks_spec;
ghost use Rattle.dml_grammar.specs.Limits as limit;
ghost use Rattle.dml_grammar.specs.inside.Fronts.{front};

use crate::placed::Placed;
use crate::sorts::{is_of, is_word_among};
use dml_tree::{Sort, Symbol, Word};

/// What the limits on a statement count.
#[derive(Clone, Copy, Debug)]
pub struct Counts {
    /// Whether the token before is the name of a function.
    pub called: bool,
    /// The marks of the line so far.
    pub marks: u32,
    /// How deep the blocks nest.
    pub depth: u32,
}

fn is_function(sort: Sort) -> bool
    ensures { result ≡ marks_spec.is_function sort }
{
    match sort {
        Sort::Word(Word::Abs) => true,
        Sort::Word(Word::Min) => true,
        Sort::Word(Word::Max) => true,
        Sort::Word(Word::NaFill) => true,
        _ => false,
    }
}

fn is_mark(sort: Sort) -> bool
    ensures { result ≡ marks_spec.is_mark sort }
{
    match sort {
        Sort::Symbol(Symbol::Open) => true,
        Sort::Symbol(Symbol::Plus) => true,
        Sort::Symbol(Symbol::Minus) => true,
        Sort::Symbol(Symbol::Star) => true,
        Sort::Symbol(Symbol::Slash) => true,
        Sort::Word(Word::Not) => true,
        Sort::Word(Word::And) => true,
        Sort::Word(Word::Or) => true,
        Sort::Word(Word::Eq) => true,
        Sort::Word(Word::Ne) => true,
        Sort::Word(Word::Lt) => true,
        Sort::Word(Word::Le) => true,
        Sort::Word(Word::Gt) => true,
        Sort::Word(Word::Ge) => true,
        Sort::Word(Word::If) => true,
        _ => is_function(sort),
    }
}

fn is_opening(sort: Sort) -> bool
    ensures { result ≡ marks_spec.is_opening sort }
{
    match sort {
        Sort::Symbol(Symbol::Open) => true,
        _ => false,
    }
}

fn is_if(sort: Sort) -> bool
    ensures { result ≡ limit.is_if sort }
{
    match sort {
        Sort::Word(Word::If) => true,
        _ => false,
    }
}

fn is_mark_here(called: bool, token: &Placed) -> bool
    ensures { result ≡ limit.is_mark_here called token.now }
{
    let sort = token.token.what.sort();
    is_mark(sort) & !(called & is_opening(sort)) & !(token.first & is_if(sort))
}

fn marks_after(counts: Counts, token: &Placed) -> u32
    requires { counts.marks ≤ 200 }
    ensures { result ≡ limit.marks_after counts token.now }
{
    let before = if token.first { 0 } else { counts.marks };
    if is_mark_here(counts.called, token) {
        return before + 1;
    }
    before
}

fn depth_after(depth: u32, token: &Placed) -> u32
    requires { depth ≤ 32 }
    ensures { result ≡ limit.depth_after depth token.now }
{
    if !token.first {
        return depth;
    }
    if is_word_among(
        token.token.what.sort(),
        &[Word::While, Word::For, Word::If, Word::Else],
    ) {
        return depth + 1;
    }
    if is_of(token, Sort::Word(Word::DoEnd)) {
        return depth.saturating_sub(1);
    }
    depth
}

impl Counts {
    fn is_allowed(&self) -> bool
        ensures { result ≡ limit.is_allowed self.now }
    {
        self.marks <= 200 && self.depth <= 32
    }

    fn after(self, token: &Placed) -> Counts
        requires marks { self.marks ≤ 200 }
        requires depth { self.depth ≤ 32 }
        ensures { result ≡ limit.counted self token.now }
    {
        Counts {
            called: is_function(token.token.what.sort()),
            marks: marks_after(self, token),
            depth: depth_after(self.depth, token),
        }
    }
}

/// How many tokens keep the limits.
pub fn kept(tokens: &[Placed]) -> usize
    ensures longest { IsLongestFront limit.keeps_limits tokens.now result }
    ensures within { result ≤ length tokens.now }
{
    kept_count(tokens)
}

fn kept_count(tokens: &[Placed]) -> usize
    ensures { result ≡ front limit.none_counted tokens.now }
{
    let mut counts = Counts {
        called: false,
        marks: 0,
        depth: 0,
    };
    let mut at = 0;
    for token in tokens {
        let next = counts.after(token);
        if !next.is_allowed() {
            return at;
        }
        counts = next;
        at += 1;
    }
    at
}
