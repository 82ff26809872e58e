use crate::store::Store;
use aw_disk::Disk;

fn needs_send<T: Send + Drop>(_: T) {}

// A store may go to another thread where its disk may. Proved for every disk, and never run.
fn stores_cross_threads<D: Disk + Send + Drop>(store: Store<D>) {
    needs_send(store);
}
