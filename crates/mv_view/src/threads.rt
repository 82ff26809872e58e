use crate::view::View;

fn needs_send_and_sync<T: Send + Sync + Drop>(_: T) {}

// A view may go to another thread. Proved, and never run.
fn views_cross_threads(view: View) {
    needs_send_and_sync(view);
}
