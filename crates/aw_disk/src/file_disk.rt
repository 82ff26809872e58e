ghost use Rattle.std.specs.Prelude.{◌≡◌, ◌≤◌, ◌↔◌, length, None, IfOk, OnOk, OnErr, IsOk, IsErr, IsTrue, is_some};
ghost use Rattle.aw_lists.specs.Faults.{next_count, Rose};
ghost use Rattle.aw_disk.specs.Calls.{length_limit};
ghost use Rattle.aw_disk.specs.FileDisk.{faults_of, tells_why, is_open, tells_nothing};

use crate::disk::{Disk, Failed};
use crate::opening::open_alone;
use std::fs::File;
use std::io;
use std::os::unix::fs::FileExt;

/// A file as a disk, which tells nothing (docs/FORMATS.md, "The disk model"). A failure of the system
/// counts as a fault, an interrupted read included. Where the file couldn't be opened, every call is
/// such a failure.
#[derive(Drop)]
pub struct FileDisk {
    file: io::Result<File>,
    faults: u64,
    error: Option<io::Error>,
}

impl FileDisk {
    /// The greatest length of a disk.
    const LIMIT: u64 = 1 << 62;

    /// The file at a path, opened for reading and writing, and made where there is none. It is locked
    /// until the disk is dropped; where another process has locked it, it can't be opened. Neither can
    /// one that would get a descriptor of the standard streams, nor a file without bytes whose folder
    /// can't be synced.
    pub fn open(rt: &HostRuntime, path: &str) -> FileDisk
        ensures { faults_of result ≡ 0 }
    {
        FileDisk {
            file: open_alone(rt, path),
            faults: 0,
            error: None,
        }
    }

    /// What the system said at the last failure, or nothing where no call failed.
    pub fn error(&self) -> Option<io::Error>
        ensures { is_some result ≡ tells_why self.now }
    {
        self.error
    }

    fn file(&self) -> io::Result<&File>
        ensures { IsOk result ↔ IsTrue (is_open self.now) }
    {
        match &self.file {
            Ok(file) => Ok(file),
            Err(error) => Err(*error),
        }
    }

    // Counts a failure of the system as a fault.
    fn checked<T: Drop>(&mut self, answer: io::Result<T>) -> Result<T, Failed>
        ensures same { IfOk result (λ value. answer ≡ Ok value) }
        ensures fails { IsErr result ↔ IsErr answer }
        ensures uncounted { OnOk result (self.new ≡ self.old) }
        ensures counted { OnErr result (faults_of self.new ≡ next_count (faults_of self.old)) }
        ensures told { OnErr result (IsTrue (tells_why self.new)) }
        ensures stays { is_open self.new ≡ is_open self.old }
        ensures later { faults_of self.old ≤ faults_of self.new }
    {
        match answer {
            Ok(value) => Ok(value),
            Err(error) => {
                self.faults = self.faults.saturating_add(1);
                self.error = Some(error);
                Err(Failed)
            }
        }
    }

    fn length(&self) -> io::Result<u64>
        ensures limit { IfOk result (λ count. count ≤ length_limit) }
        ensures opened { IsOk result → IsTrue (is_open self.now) }
    {
        let count = self.file()?.metadata()?.len();
        if count > Self::LIMIT {
            return Err(io::ErrorKind::FileTooLarge.into());
        }
        Ok(count)
    }

    // Reads until the buffer is full or the file ends.
    fn fill(&self, offset: u64, into: &mut [u8]) -> io::Result<usize>
        ensures within { IfOk result (λ count. count ≤ length into.new) }
        ensures opened { IsOk result → IsTrue (is_open self.now) }
    {
        let file = self.file()?;
        let mut done = 0;
        while done < into.len() {
            match file.read_at(&mut into[done..], offset.saturating_add(done as u64)) {
                Ok(0) => return Ok(done),
                Ok(count) => done += count,
                Err(error) => return Err(error),
            }
        }
        Ok(done)
    }

    fn put(&self, offset: u64, bytes: &[u8]) -> io::Result<()>
        ensures { IsOk result → IsTrue (is_open self.now) }
    {
        self.file()?.write_all_at(bytes, offset)
    }

    fn reach_device(&self) -> io::Result<()>
        ensures { IsOk result → IsTrue (is_open self.now) }
    {
        self.file()?.sync_all()
    }
}

impl Disk for FileDisk {
    ghost content = { λ _. None };

    ghost faults = { faults_of };

    ghost clock = { λ _. 0 };

    ghost crash = { λ _ _ _. ⊥ };

    ghost is_an_image = { λ disk bytes told. tells_nothing told };

    fn len(&mut self) -> Result<u64, Failed>
        ensures limit { IfOk result (λ count. count ≤ length_limit) }
        ensures later { faults_of self.old ≤ faults_of self.new }
        ensures cause { IsErr result → Rose (faults_of self.old) (faults_of self.new) }

        // A fault is counted once at each failure, and at no other time. No call succeeds where the
        // file couldn't be opened.
        ensures uncounted { OnOk result (faults_of self.new ≡ faults_of self.old) }
        ensures counted { OnErr result (faults_of self.new ≡ next_count (faults_of self.old)) }
        ensures told { OnErr result (IsTrue (tells_why self.new)) }
        ensures opened { IsOk result → IsTrue (is_open self.old) }
        ensures stays { is_open self.new ≡ is_open self.old }
    {
        let answer = self.length();
        self.checked(answer)
    }

    fn read_at(&mut self, offset: u64, into: &mut [u8]) -> Result<usize, Failed>
        ensures within { IfOk result (λ count. count ≤ length into.new) }
        ensures later { faults_of self.old ≤ faults_of self.new }
        ensures cause { IsErr result → Rose (faults_of self.old) (faults_of self.new) }

        // A fault is counted once at each failure, and at no other time. No call succeeds where the
        // file couldn't be opened.
        ensures uncounted { OnOk result (faults_of self.new ≡ faults_of self.old) }
        ensures counted { OnErr result (faults_of self.new ≡ next_count (faults_of self.old)) }
        ensures told { OnErr result (IsTrue (tells_why self.new)) }
        ensures opened { IsOk result → IsTrue (is_open self.old) }
        ensures stays { is_open self.new ≡ is_open self.old }
    {
        let answer = self.fill(offset, into);
        self.checked(answer)
    }

    fn write_at(&mut self, offset: u64, bytes: &[u8]) -> Result<(), Failed>
        ensures later { faults_of self.old ≤ faults_of self.new }
        ensures cause { IsErr result → Rose (faults_of self.old) (faults_of self.new) }

        // A fault is counted once at each failure, and at no other time. No call succeeds where the
        // file couldn't be opened.
        ensures uncounted { OnOk result (faults_of self.new ≡ faults_of self.old) }
        ensures counted { OnErr result (faults_of self.new ≡ next_count (faults_of self.old)) }
        ensures told { OnErr result (IsTrue (tells_why self.new)) }
        ensures opened { IsOk result → IsTrue (is_open self.old) }
        ensures stays { is_open self.new ≡ is_open self.old }
    {
        let answer = self.put(offset, bytes);
        self.checked(answer)
    }

    fn sync(&mut self) -> Result<(), Failed>
        ensures later { faults_of self.old ≤ faults_of self.new }
        ensures cause { IsErr result → Rose (faults_of self.old) (faults_of self.new) }

        // A fault is counted once at each failure, and at no other time. No call succeeds where the
        // file couldn't be opened.
        ensures uncounted { OnOk result (faults_of self.new ≡ faults_of self.old) }
        ensures counted { OnErr result (faults_of self.new ≡ next_count (faults_of self.old)) }
        ensures told { OnErr result (IsTrue (tells_why self.new)) }
        ensures opened { IsOk result → IsTrue (is_open self.old) }
        ensures stays { is_open self.new ≡ is_open self.old }
    {
        let answer = self.reach_device();
        self.checked(answer)
    }
}
