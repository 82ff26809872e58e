use crate::expr::Expr;

fn needs_send_and_sync<T: Send + Sync + Drop>(_: T) {}

// An expression may go to another thread. Proved, and never run.
fn expressions_cross_threads(expr: Expr) {
    needs_send_and_sync(expr);
}
