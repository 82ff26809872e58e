use dml_tree::Token;

/// A token with where it stands: the parts of the grammar are lists of these (docs/LANGUAGE.md, "How
/// a line is read").
#[derive(Clone, Copy, Debug)]
pub struct Placed {
    /// The token.
    pub token: Token,
    /// The line, counted from 1 in a block, and 0 where there is one line alone.
    pub line: u32,
    /// Whether the token is the first one of its line.
    pub first: bool,
    /// The place behind the last byte of the token before it in its line, 0 where there is none.
    pub past: u32,
    /// The place of the first byte of the token behind it in its line, 0 where there is none.
    pub next: u32,
}
