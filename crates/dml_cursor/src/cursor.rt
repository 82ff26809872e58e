#![tactic(auto, using(crate::proofs::Steps::reads_is))]

ghost use Rattle.std.specs.Prelude.{◌≡◌, ◌≤◌, ◌<◌, length, OnOk, map, [], ◌∷◌};
ghost use Rattle.dml_forms.specs.Forms.{goes};
ghost use Rattle.dml_forms.specs.inside.LookAhead.{one_of};
ghost use Rattle.dml_grammar.specs.Sorts as sorts_spec;
ghost use Rattle.dml_grammar.specs.Grammar as g;
ghost use Rattle.dml_grammar.specs.inside.Tables.{reads};
ghost use Rattle.dml_grammar.specs.inside.Steps.{Read, comes, expected};

use crate::values::{
    count_of, joint_of, kin_of, kind_of, limiting_of, numeral_of, operator_of, rest_of, text_of,
};
use aw_cell::{Kind, Operator, Rest, Text};
use dml_grammar::{Fault, Placed, is_among, is_of, is_symbol_among, is_word_among};
use dml_tree::{Expr, Joint, Kin, Limiting, Sort, Symbol, Word};

/// The tokens that are left.
#[derive(Drop)]
pub struct Tokens<'a> {
    /// What is left, from the next token on.
    pub rest: &'a [Placed],
}

impl<'a> Tokens<'a> {
    /// Whether a token of this sort comes.
    pub fn sees(&self, sort: Sort) -> bool
        ensures { result ≡ comes sort self.now.rest.now }
    {
        match self.rest {
            [token, ..] => is_of(token, sort),
            [] => false,
        }
    }

    /// Takes a token of this sort.
    pub fn expect(&mut self, sort: Sort) -> Result<Placed, Fault>
        ensures read { Read (expected sort self.old.rest.now) result self.new.rest.now }
        ensures less { length self.new.rest.now ≤ length self.old.rest.now }
        ensures fewer { OnOk result (length self.new.rest.now < length self.old.rest.now) }
    {
        match self.rest {
            [token, rest @ ..] if is_of(token, sort) => {
                let token = *token;
                self.rest = rest;
                Ok(token)
            }
            _ => Err(Fault::Syntax),
        }
    }

    /// Whether a token of one of these sorts comes.
    pub fn sees_any(&self, sorts: &[Sort]) -> bool
        ensures { result ≡ goes sorts_spec.sort (map sorts_spec.number sorts.now) self.now.rest.now }
    {
        match self.rest {
            [token, ..] => is_among(token.token.what.sort(), sorts),
            [] => false,
        }
    }

    /// Takes a token of one of these sorts.
    pub fn expect_any(&mut self, sorts: &[Sort]) -> Result<Placed, Fault>
        ensures read { Read (one_of sorts_spec.sort (map sorts_spec.number sorts.now) self.old.rest.now) result self.new.rest.now }
        ensures less { length self.new.rest.now ≤ length self.old.rest.now }
        ensures fewer { OnOk result (length self.new.rest.now < length self.old.rest.now) }
    {
        match self.rest {
            [token, rest @ ..] if is_among(token.token.what.sort(), sorts) => {
                let token = *token;
                self.rest = rest;
                Ok(token)
            }
            _ => Err(Fault::Syntax),
        }
    }

    /// Whether one of these words comes.
    pub fn sees_one(&self, words: &[Word]) -> bool
        ensures { result ≡ goes sorts_spec.sort (sorts_spec.words_of words.now) self.now.rest.now }
    {
        match self.rest {
            [token, ..] => is_word_among(token.token.what.sort(), words),
            [] => false,
        }
    }

    /// Takes one of these words.
    pub fn one(&mut self, words: &[Word]) -> Result<Placed, Fault>
        ensures read { Read (one_of sorts_spec.sort (sorts_spec.words_of words.now) self.old.rest.now) result self.new.rest.now }
        ensures less { length self.new.rest.now ≤ length self.old.rest.now }
        ensures fewer { OnOk result (length self.new.rest.now < length self.old.rest.now) }
    {
        match self.rest {
            [token, rest @ ..] if is_word_among(token.token.what.sort(), words) => {
                let token = *token;
                self.rest = rest;
                Ok(token)
            }
            _ => Err(Fault::Syntax),
        }
    }

    /// Whether this word comes.
    pub fn sees_word(&self, word: Word) -> bool
        ensures { result ≡ comes (Sort.Word word) self.now.rest.now }
    {
        self.sees(Sort::Word(word))
    }

    /// Whether this symbol comes.
    pub fn sees_symbol(&self, symbol: Symbol) -> bool
        ensures { result ≡ comes (Sort.Symbol symbol) self.now.rest.now }
    {
        self.sees(Sort::Symbol(symbol))
    }

    /// Whether one of these symbols comes.
    pub fn sees_sign(&self, symbols: &[Symbol]) -> bool
        ensures { result ≡ goes sorts_spec.sort (sorts_spec.symbols_of symbols.now) self.now.rest.now }
    {
        match self.rest {
            [token, ..] => is_symbol_among(token.token.what.sort(), symbols),
            [] => false,
        }
    }

    /// Takes one of these symbols.
    pub fn sign(&mut self, symbols: &[Symbol]) -> Result<Placed, Fault>
        ensures read { Read (one_of sorts_spec.sort (sorts_spec.symbols_of symbols.now) self.old.rest.now) result self.new.rest.now }
        ensures less { length self.new.rest.now ≤ length self.old.rest.now }
        ensures fewer { OnOk result (length self.new.rest.now < length self.old.rest.now) }
    {
        match self.rest {
            [token, rest @ ..] if is_symbol_among(token.token.what.sort(), symbols) => {
                let token = *token;
                self.rest = rest;
                Ok(token)
            }
            _ => Err(Fault::Syntax),
        }
    }

    /// Takes this word.
    pub fn word(&mut self, word: Word) -> Result<(), Fault>
        ensures read { Read (reads (g.keyword word) self.old.rest.now) result self.new.rest.now }
        ensures less { length self.new.rest.now ≤ length self.old.rest.now }
        ensures fewer { OnOk result (length self.new.rest.now < length self.old.rest.now) }
    {
        match self.expect(Sort::Word(word)) {
            Ok(_) => Ok(()),
            Err(fault) => Err(fault),
        }
    }

    /// Takes this symbol.
    pub fn symbol(&mut self, symbol: Symbol) -> Result<(), Fault>
        ensures read { Read (reads (g.sign symbol) self.old.rest.now) result self.new.rest.now }
        ensures less { length self.new.rest.now ≤ length self.old.rest.now }
        ensures fewer { OnOk result (length self.new.rest.now < length self.old.rest.now) }
    {
        match self.expect(Sort::Symbol(symbol)) {
            Ok(_) => Ok(()),
            Err(fault) => Err(fault),
        }
    }

    /// Takes the end of the line.
    pub fn line_end(&mut self) -> Result<(), Fault>
        ensures read { Read (reads g.line_end self.old.rest.now) result self.new.rest.now }
        ensures less { length self.new.rest.now ≤ length self.old.rest.now }
        ensures fewer { OnOk result (length self.new.rest.now < length self.old.rest.now) }
    {
        match self.expect(Sort::End) {
            Ok(_) => Ok(()),
            Err(fault) => Err(fault),
        }
    }

    /// Takes this word and gives its line.
    pub fn line_of(&mut self, word: Word) -> Result<u32, Fault>
        ensures read { Read (reads (g.line_of word) self.old.rest.now) result self.new.rest.now }
        ensures less { length self.new.rest.now ≤ length self.old.rest.now }
        ensures fewer { OnOk result (length self.new.rest.now < length self.old.rest.now) }
    {
        match self.expect(Sort::Word(word)) {
            Ok(token) => Ok(token.line),
            Err(fault) => Err(fault),
        }
    }

    /// Takes the end of the line and gives the line.
    pub fn ending_line(&mut self) -> Result<u32, Fault>
        ensures read { Read (reads g.ending_line self.old.rest.now) result self.new.rest.now }
        ensures less { length self.new.rest.now ≤ length self.old.rest.now }
        ensures fewer { OnOk result (length self.new.rest.now < length self.old.rest.now) }
    {
        match self.expect(Sort::End) {
            Ok(token) => Ok(token.line),
            Err(fault) => Err(fault),
        }
    }

    /// Takes FORMULA and gives the place of the token behind it.
    pub fn formula_from(&mut self) -> Result<u32, Fault>
        ensures read { Read (reads g.formula_from self.old.rest.now) result self.new.rest.now }
        ensures less { length self.new.rest.now ≤ length self.old.rest.now }
        ensures fewer { OnOk result (length self.new.rest.now < length self.old.rest.now) }
    {
        match self.expect(Sort::Word(Word::Formula)) {
            Ok(token) => Ok(token.next),
            Err(fault) => Err(fault),
        }
    }

    /// Takes the end of the line and gives the place behind the token before it.
    pub fn formula_to(&mut self) -> Result<u32, Fault>
        ensures read { Read (reads g.formula_to self.old.rest.now) result self.new.rest.now }
        ensures less { length self.new.rest.now ≤ length self.old.rest.now }
        ensures fewer { OnOk result (length self.new.rest.now < length self.old.rest.now) }
    {
        match self.expect(Sort::End) {
            Ok(token) => Ok(token.past),
            Err(fault) => Err(fault),
        }
    }

    /// Takes YES or TRUE.
    pub fn yes(&mut self) -> Result<(), Fault>
        ensures read { Read (reads g.yes self.old.rest.now) result self.new.rest.now }
        ensures less { length self.new.rest.now ≤ length self.old.rest.now }
        ensures fewer { OnOk result (length self.new.rest.now < length self.old.rest.now) }
    {
        match self.one(&[Word::Yes, Word::True]) {
            Ok(_) => Ok(()),
            Err(fault) => Err(fault),
        }
    }

    /// Takes NO or FALSE.
    pub fn no(&mut self) -> Result<(), Fault>
        ensures read { Read (reads g.no self.old.rest.now) result self.new.rest.now }
        ensures less { length self.new.rest.now ≤ length self.old.rest.now }
        ensures fewer { OnOk result (length self.new.rest.now < length self.old.rest.now) }
    {
        match self.one(&[Word::No, Word::False]) {
            Ok(_) => Ok(()),
            Err(fault) => Err(fault),
        }
    }

    /// Takes a name.
    pub fn name(&mut self) -> Result<Text, Fault>
        ensures read { Read (reads g.name self.old.rest.now) result self.new.rest.now }
        ensures less { length self.new.rest.now ≤ length self.old.rest.now }
        ensures fewer { OnOk result (length self.new.rest.now < length self.old.rest.now) }
    {
        Ok(text_of(self.expect(Sort::Name)?.token.what))
    }

    /// Takes a text.
    pub fn text(&mut self) -> Result<Text, Fault>
        ensures read { Read (reads g.text self.old.rest.now) result self.new.rest.now }
        ensures less { length self.new.rest.now ≤ length self.old.rest.now }
        ensures fewer { OnOk result (length self.new.rest.now < length self.old.rest.now) }
    {
        Ok(text_of(self.expect(Sort::Text)?.token.what))
    }

    /// Takes a numeral without a point.
    pub fn count(&mut self) -> Result<u64, Fault>
        ensures read { Read (reads g.count self.old.rest.now) result self.new.rest.now }
        ensures less { length self.new.rest.now ≤ length self.old.rest.now }
        ensures fewer { OnOk result (length self.new.rest.now < length self.old.rest.now) }
    {
        Ok(count_of(self.expect_any(&[Sort::Integer, Sort::Whole])?.token.what))
    }

    /// Takes a numeral.
    pub fn numeral(&mut self) -> Result<Expr, Fault>
        ensures read { Read (reads g.numeral self.old.rest.now) result self.new.rest.now }
        ensures less { length self.new.rest.now ≤ length self.old.rest.now }
        ensures fewer { OnOk result (length self.new.rest.now < length self.old.rest.now) }
    {
        Ok(numeral_of(
            self.expect_any(&[Sort::Integer, Sort::Whole, Sort::Decimal])?
                .token
                .what,
        ))
    }

    /// Takes the word of a comparison.
    pub fn comparison(&mut self) -> Result<Joint, Fault>
        ensures read { Read (reads g.comparison self.old.rest.now) result self.new.rest.now }
        ensures less { length self.new.rest.now ≤ length self.old.rest.now }
        ensures fewer { OnOk result (length self.new.rest.now < length self.old.rest.now) }
    {
        Ok(joint_of(
            self.one(&[Word::Eq, Word::Ne, Word::Lt, Word::Le, Word::Gt, Word::Ge])?
                .token
                .what,
        ))
    }

    /// Takes a plus or a minus.
    pub fn additive(&mut self) -> Result<Joint, Fault>
        ensures read { Read (reads g.additive self.old.rest.now) result self.new.rest.now }
        ensures less { length self.new.rest.now ≤ length self.old.rest.now }
        ensures fewer { OnOk result (length self.new.rest.now < length self.old.rest.now) }
    {
        Ok(joint_of(self.sign(&[Symbol::Plus, Symbol::Minus])?.token.what))
    }

    /// Takes a star or a slash.
    pub fn multiplicative(&mut self) -> Result<Joint, Fault>
        ensures read { Read (reads g.multiplicative self.old.rest.now) result self.new.rest.now }
        ensures less { length self.new.rest.now ≤ length self.old.rest.now }
        ensures fewer { OnOk result (length self.new.rest.now < length self.old.rest.now) }
    {
        Ok(joint_of(self.sign(&[Symbol::Star, Symbol::Slash])?.token.what))
    }

    /// Takes the name of a function of two expressions.
    pub fn function(&mut self) -> Result<Joint, Fault>
        ensures read { Read (reads g.function self.old.rest.now) result self.new.rest.now }
        ensures less { length self.new.rest.now ≤ length self.old.rest.now }
        ensures fewer { OnOk result (length self.new.rest.now < length self.old.rest.now) }
    {
        Ok(joint_of(self.one(&[Word::Min, Word::Max, Word::NaFill])?.token.what))
    }

    /// Takes the word of a LIMIT that says how the status changes.
    pub fn limiting(&mut self) -> Result<Limiting, Fault>
        ensures read { Read (reads g.limiting self.old.rest.now) result self.new.rest.now }
        ensures less { length self.new.rest.now ≤ length self.old.rest.now }
        ensures fewer { OnOk result (length self.new.rest.now < length self.old.rest.now) }
    {
        Ok(limiting_of(
            self.one(&[
                Word::To,
                Word::Add,
                Word::Keep,
                Word::Remove,
                Word::Complement,
            ])?
            .token
            .what,
        ))
    }

    /// Takes a word of kinship.
    pub fn kinship(&mut self) -> Result<Kin, Fault>
        ensures read { Read (reads g.kinship self.old.rest.now) result self.new.rest.now }
        ensures less { length self.new.rest.now ≤ length self.old.rest.now }
        ensures fewer { OnOk result (length self.new.rest.now < length self.old.rest.now) }
    {
        Ok(kin_of(
            self.one(&[
                Word::Parents,
                Word::Children,
                Word::Ancestors,
                Word::Descendants,
            ])?
            .token
            .what,
        ))
    }

    /// Takes the word of a kind.
    pub fn kind(&mut self) -> Result<Kind, Fault>
        ensures read { Read (reads g.kind self.old.rest.now) result self.new.rest.now }
        ensures less { length self.new.rest.now ≤ length self.old.rest.now }
        ensures fewer { OnOk result (length self.new.rest.now < length self.old.rest.now) }
    {
        Ok(kind_of(
            self.one(&[Word::Number, Word::Integer, Word::Text, Word::Boolean])?
                .token
                .what,
        ))
    }

    /// Takes an operator behind which REMOPERATOR may stand.
    pub fn sharing(&mut self) -> Result<Operator, Fault>
        ensures read { Read (reads g.sharing self.old.rest.now) result self.new.rest.now }
        ensures less { length self.new.rest.now ≤ length self.old.rest.now }
        ensures fewer { OnOk result (length self.new.rest.now < length self.old.rest.now) }
    {
        Ok(operator_of(
            self.one(&[Word::Even, Word::HEven, Word::Proportional])?
                .token
                .what,
        ))
    }

    /// Takes another operator of an aggmap.
    pub fn combining(&mut self) -> Result<Operator, Fault>
        ensures read { Read (reads g.combining self.old.rest.now) result self.new.rest.now }
        ensures less { length self.new.rest.now ≤ length self.old.rest.now }
        ensures fewer { OnOk result (length self.new.rest.now < length self.old.rest.now) }
    {
        Ok(operator_of(
            self.one(&[Word::Sum, Word::Min, Word::Max, Word::Copy, Word::HCopy])?
                .token
                .what,
        ))
    }

    /// Takes which child gets what is left.
    pub fn rest(&mut self) -> Result<Rest, Fault>
        ensures read { Read (reads g.rest self.old.rest.now) result self.new.rest.now }
        ensures less { length self.new.rest.now ≤ length self.old.rest.now }
        ensures fewer { OnOk result (length self.new.rest.now < length self.old.rest.now) }
    {
        Ok(rest_of(
            self.one(&[Word::First, Word::Last, Word::Min, Word::Max])?
                .token
                .what,
        ))
    }
}
