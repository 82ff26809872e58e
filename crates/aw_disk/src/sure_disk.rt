ghost use Rattle.std.specs.Prelude.{◌≡◌, ◌≤◌, Some, length, IfOk, IfSome, IsOk, OnOk};
ghost use Rattle.aw_disk.specs.Calls.{Reads, Written, length_limit};
ghost use Rattle.aw_disk.specs.Images.{TornFrom};
ghost use Rattle.aw_disk.specs.Moments.{Elapsed};
ghost use Rattle.aw_disk.specs.SureDisk.{overwritten_within};

use crate::NoMemory;
use crate::disk::{Disk, Failed};
use crate::placing::{overwrite, read_from};
use std::alloc::Global;
use std::marker::Model;

/// A disk that never fails, in memory that is taken when it is made (docs/FORMATS.md, "The disk
/// model"). Each write is on it at once, and its clock stands still. Once it was given more than its
/// room it keeps no further bytes and tells nothing.
#[derive(Debug, Drop)]
pub struct SureDisk {
    bytes: Vec<u8>,
    room: usize,
    is_exceeded: bool,
}

impl Model for SureDisk {
    ghost use Rattle.std.specs.Prelude.{◌≤◌, ◌<◌, ◌^◌, None, Some, if◌then◌else◌, vec_len, vec_capacity};
    ghost use Rattle.aw_disk.specs.SureDisk.{SureDiskState};

    ghost Value = { SureDiskState };

    ghost view = { λ disk. record { content = (if disk.is_exceeded then None else Some disk.bytes.items); room = disk.room } };

    ghost invariant = { λ disk. (vec_len disk.bytes ≤ disk.room) × (disk.room ≤ vec_capacity disk.bytes) × (disk.room < 2 ^ 32) };
}

impl SureDisk {
    /// A disk with these bytes, and room for `room` bytes in all. `NoMemory`: there is no memory for
    /// them.
    pub fn new(alloc: Global, bytes: &[u8], room: u32) -> Result<SureDisk, NoMemory>
        requires { length bytes.now ≤ room }
        ensures { IfOk result (λ disk. disk ≡ record { content = Some bytes.now; room = room }) }
    {
        let room = room as usize;
        let mut held = Vec::with_capacity(alloc, room)?;
        held.extend_from_slice(bytes).unwrap();
        Ok(SureDisk {
            bytes: held,
            room,
            is_exceeded: false,
        })
    }

    /// The content, unless the room was exceeded.
    pub fn bytes(&self) -> &[u8]
        ensures { IfSome self.now.content (λ content. result.now ≡ content) }
    {
        self.bytes.as_slice()
    }
}

impl Disk for SureDisk {
    ghost content = { λ disk. disk.content };

    ghost faults = { λ _. 0 };

    ghost clock = { λ _. 0 };

    ghost crash = { λ disk _ image. disk.content ≡ Some image };

    ghost is_an_image = { λ disk bytes told. told };

    fn len(&mut self) -> Result<u64, Failed>
        ensures length { IfOk result (λ count. IfSome self.old.content (λ bytes. count ≡ length bytes)) }
        ensures limit { IfOk result (λ count. count ≤ length_limit) }
        ensures never { IsOk result }
        ensures same { self.new ≡ self.old }
    {
        Ok(self.bytes.len() as u64)
    }

    fn read_at(&mut self, offset: u64, into: &mut [u8]) -> Result<usize, Failed>
        ensures read { IfOk result (λ count. IfSome self.old.content (λ bytes. Reads count offset bytes into.new)) }
        ensures within { IfOk result (λ count. count ≤ length into.new) }
        ensures never { IsOk result }
        ensures same { self.new ≡ self.old }
    {
        Ok(read_from(self.bytes.as_slice(), offset, into))
    }

    fn write_at(&mut self, offset: u64, bytes: &[u8]) -> Result<(), Failed>
        requires { IfSome self.old.content (λ content. offset ≤ length content) }
        ensures written { OnOk result (Written offset bytes.now self.old.content self.new.content) }
        ensures time { Elapsed 0 0 (λ _ image. self.old.content ≡ Some image) (λ _ image. self.new.content ≡ Some image) (TornFrom offset (length bytes.now) (λ image. self.old.content ≡ Some image)) }

        // It is written in whole, where the room has it.
        ensures content { self.new.content ≡ overwritten_within self.old.room self.old.content offset bytes.now }
        ensures never { IsOk result }
        ensures room { self.new.room ≡ self.old.room }
    {
        if self.is_exceeded || bytes.len() > self.room - offset as usize {
            self.is_exceeded = true;
            return Ok(());
        }
        overwrite(&mut self.bytes, offset as usize, bytes);
        Ok(())
    }

    fn sync(&mut self) -> Result<(), Failed>
        ensures never { IsOk result }
        ensures same { self.new ≡ self.old }
    {
        Ok(())
    }
}
