use crate::record::{BadRecord, CodeLong, Decoded};

fn needs_send_and_sync<T: Send + Sync + Drop>(_: T) {}

// What is decoded and why it can't be may go to another thread. Proved, and never run.
fn records_cross_threads(decoded: Decoded, bad: BadRecord, long: CodeLong) {
    needs_send_and_sync(decoded);
    needs_send_and_sync(bad);
    needs_send_and_sync(long);
}
