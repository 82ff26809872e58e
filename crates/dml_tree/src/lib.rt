//! The tokens of a line, and the trees that statements and definitions are read into.
#![tactic(auto)]

mod definition;
mod expr;
mod laws;
mod line;
mod next;
mod numeral;
mod quoted;
mod statement;
mod threads;
mod token;
mod word;

pub use definition::{Defined, Definition, Local, MapLine, Program, Remainder, Step};
pub use expr::{Expr, Fix, Joint, Target};
pub use laws::{
    each_line_is_read, lines_are_read_one_way, tokens_stand_in_order, words_are_reserved,
};
pub use line::tokens;
pub use statement::{Kin, Limiting, Mode, Place, Range, Select, Statement};
pub use token::{Lexeme, Sort, Symbol, Token, TokenFault};
pub use word::Word;
