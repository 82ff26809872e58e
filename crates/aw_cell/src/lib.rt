//! The cells of a workspace: numbers, texts, and a cell of any kind; and the names of its objects.
#![tactic(auto)]

mod arithmetic;
mod cell;
mod comparison;
mod laws;
mod logic;
mod name;
mod number;
mod numeral;
mod operator;
mod printing;
mod text;

pub use cell::{Cell, Kind};
pub use comparison::Order;
pub use laws::{
    arithmetic_stays_in_range, comparison_orders, de_morgan, na_compares_with_na,
    numerals_have_one_value, one_is_neutral, orders_agree, rounds_to_the_nearest,
    sums_in_any_order, texts_are_numerals, texts_tell_apart, truth_tables,
};
pub use name::{begins_with_letter, is_name, is_same_word, is_word_byte};
pub use number::{Arith, Number};
pub use numeral::NumberFault;
pub use operator::{Operator, Rest, Spread};
pub use text::Text;
