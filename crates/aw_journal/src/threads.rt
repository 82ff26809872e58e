use crate::journal::Journal;
use aw_disk::Disk;

fn needs_send_and_sync<T: Send + Sync + Drop>(_: T) {}

// A journal may go to another thread where its disk may. Proved for every disk, and never run.
fn journals_cross_threads<D: Disk + Send + Sync + Drop>(journal: Journal<D>) {
    needs_send_and_sync(journal);
}
