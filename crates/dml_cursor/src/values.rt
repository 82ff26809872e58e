ghost use Rattle.std.specs.Prelude.{◌≡◌};
ghost use Rattle.dml_grammar.specs.TokenValues as value;

use aw_cell::{Kind, Operator, Order, Rest, Spread, Text};
use dml_tree::{Expr, Joint, Kin, Lexeme, Limiting, Symbol, Word};

pub(crate) fn text_of(what: Lexeme) -> Text
    ensures { result ≡ value.text_of what }
{
    match what {
        Lexeme::Name(text) => text,
        Lexeme::Text(text) => text,
        _ => match Text::of(b"") {
            Some(text) => text,
            None => unreachable!(),
        },
    }
}

pub(crate) fn count_of(what: Lexeme) -> u64
    ensures { result ≡ value.count_value what }
{
    match what.count() {
        Some(count) => count,
        None => 0,
    }
}

pub(crate) fn numeral_of(what: Lexeme) -> Expr
    ensures { result ≡ value.numeral_of what }
{
    match what {
        Lexeme::Integer(number) => Expr::Integer(number),
        Lexeme::Whole(number) => Expr::Number(number),
        Lexeme::Decimal(number) => Expr::Number(number),
        _ => Expr::Na,
    }
}

pub(crate) fn joint_of(what: Lexeme) -> Joint
    ensures { result ≡ value.joint_of what }
{
    match what {
        Lexeme::Word(Word::Or) => Joint::Or,
        Lexeme::Word(Word::And) => Joint::And,
        Lexeme::Word(Word::Eq) => Joint::Compare(Order::Eq),
        Lexeme::Word(Word::Ne) => Joint::Compare(Order::Ne),
        Lexeme::Word(Word::Lt) => Joint::Compare(Order::Lt),
        Lexeme::Word(Word::Le) => Joint::Compare(Order::Le),
        Lexeme::Word(Word::Gt) => Joint::Compare(Order::Gt),
        Lexeme::Word(Word::Ge) => Joint::Compare(Order::Ge),
        Lexeme::Word(Word::Min) => Joint::Min,
        Lexeme::Word(Word::Max) => Joint::Max,
        Lexeme::Symbol(Symbol::Plus) => Joint::Add,
        Lexeme::Symbol(Symbol::Minus) => Joint::Sub,
        Lexeme::Symbol(Symbol::Star) => Joint::Mul,
        Lexeme::Symbol(Symbol::Slash) => Joint::Div,
        _ => Joint::NaFill,
    }
}

pub(crate) fn limiting_of(what: Lexeme) -> Limiting
    ensures { result ≡ value.limiting_of what }
{
    match what {
        Lexeme::Word(Word::To) => Limiting::To,
        Lexeme::Word(Word::Add) => Limiting::Add,
        Lexeme::Word(Word::Keep) => Limiting::Keep,
        Lexeme::Word(Word::Remove) => Limiting::Remove,
        _ => Limiting::Complement,
    }
}

pub(crate) fn kin_of(what: Lexeme) -> Kin
    ensures { result ≡ value.kin_of what }
{
    match what {
        Lexeme::Word(Word::Parents) => Kin::Parents,
        Lexeme::Word(Word::Children) => Kin::Children,
        Lexeme::Word(Word::Ancestors) => Kin::Ancestors,
        _ => Kin::Descendants,
    }
}

pub(crate) fn kind_of(what: Lexeme) -> Kind
    ensures { result ≡ value.kind_of what }
{
    match what {
        Lexeme::Word(Word::Number) => Kind::Num,
        Lexeme::Word(Word::Integer) => Kind::Int,
        Lexeme::Word(Word::Text) => Kind::Text,
        _ => Kind::Bool,
    }
}

pub(crate) fn operator_of(what: Lexeme) -> Operator
    ensures { result ≡ value.operator_of what }
{
    match what {
        Lexeme::Word(Word::Sum) => Operator::Sum,
        Lexeme::Word(Word::Min) => Operator::Min,
        Lexeme::Word(Word::Max) => Operator::Max,
        Lexeme::Word(Word::Even) => Operator::Spread(Spread::Even),
        Lexeme::Word(Word::HEven) => Operator::Spread(Spread::HEven),
        Lexeme::Word(Word::Proportional) => Operator::Spread(Spread::Proportional),
        Lexeme::Word(Word::Copy) => Operator::Spread(Spread::Copy),
        _ => Operator::Spread(Spread::HCopy),
    }
}

pub(crate) fn rest_of(what: Lexeme) -> Rest
    ensures { result ≡ value.rest_of what }
{
    match what {
        Lexeme::Word(Word::First) => Rest::First,
        Lexeme::Word(Word::Last) => Rest::Last,
        Lexeme::Word(Word::Min) => Rest::Min,
        _ => Rest::Max,
    }
}
