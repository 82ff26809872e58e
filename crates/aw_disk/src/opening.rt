use std::fs::{File, OpenOptions, TryLockError};
use std::io::ErrorKind;
use std::os::fd::AsRawFd;
use std::path::Path;
use std::{fs, io};

// The greatest descriptor of the standard streams.
const STANDARD_ERROR: i32 = 2;

/// The file at a path, opened for reading and writing, made where there is none, and locked. Where it
/// has no byte its folder is synced too, so that it is found there after a crash.
pub fn open_alone(rt: &HostRuntime, path: &str) -> io::Result<File> {
    let file = OpenOptions::new()
        .read(true)
        .write(true)
        .create(true)
        .open(rt, path)?;
    if file.as_raw_fd() <= STANDARD_ERROR {
        let why = "a standard stream is closed, and the file would stand in its place";
        return Err(io::Error::new(ErrorKind::Other, why));
    }
    lock(&file)?;
    if file.metadata()?.len() == 0 {
        sync_folder(rt, path)?;
    }
    Ok(file)
}

fn lock(file: &File) -> io::Result<()> {
    match file.try_lock() {
        Ok(()) => Ok(()),
        Err(TryLockError::WouldBlock) => Err(io::Error::new(
            ErrorKind::ResourceBusy,
            "in use by another process",
        )),
        Err(TryLockError::Error(error)) => Err(error),
    }
}

// Syncs the folder that the file stands in, also where the path is a link to it.
fn sync_folder(rt: &HostRuntime, path: &str) -> io::Result<()> {
    let place = fs::canonicalize(rt, path)?;
    let folder = place.parent().unwrap_or(Path::new("/"));
    File::open(rt, folder)?.sync_all()
}
