use crate::file_disk::FileDisk;
use crate::mem_disk::MemDisk;
use crate::sure_disk::SureDisk;

fn needs_send_and_sync<T: Send + Sync + Drop>(_: T) {}

// Each disk may be sent to another thread and shared with it. Proved, and never run.
fn disks_cross_threads(listed: MemDisk, sure: SureDisk, file: FileDisk) {
    needs_send_and_sync(listed);
    needs_send_and_sync(sure);
    needs_send_and_sync(file);
}
