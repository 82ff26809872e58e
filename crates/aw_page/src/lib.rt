//! Pages of 64 cells, in which a variable keeps its cells.
#![tactic(auto)]

mod fitting;
mod page;
mod text_page;

pub use fitting::is_fitting;
pub use page::Page;
pub use text_page::TextPage;
