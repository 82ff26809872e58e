use dml_tree::{
    Expr, Joint, Lexeme, Local, MapLine, Sort, Symbol, Target, Token, TokenFault, Word,
};

fn is_shared<T: Send + Sync>() {}

#[test]
fn tokens_cross_threads() {
    is_shared::<Token>();
    is_shared::<Lexeme>();
    is_shared::<Sort>();
    is_shared::<Symbol>();
    is_shared::<Word>();
    is_shared::<TokenFault>();
}

#[test]
fn trees_cross_threads() {
    is_shared::<Expr>();
    is_shared::<Joint>();
    is_shared::<Target>();
    is_shared::<Local>();
    is_shared::<MapLine>();
}
