ghost use Rattle.std.specs.Prelude.{◌≡◌, ◌⊎◌, ◌<◌, ◌≤◌, ◌+◌, ◌↔◌, Some, [], length, take, Contains, IfOk, OnOk, OnErr, IsErr};
ghost use Rattle.aw_disk.specs.Calls.{Reads, length_limit};
ghost use Rattle.aw_disk.specs.inside.MemDiskSteps.{started};
ghost use Rattle.aw_disk.specs.MemDisk.{content_of, left_at, counted, faulted, with_step, first_half, is_content-left};
ghost use Rattle.aw_disk.specs.Picked.{IsPicked};
ghost use Rattle.aw_disk.specs.declared.step.Step.TheVariants.{Write, Sync};
ghost use Rattle.aw_lists.specs.Faults.{Rose};

use crate::NoMemory;
use crate::disk::{Disk, Failed};
use crate::placing::{overwrite, read_from};
use crate::replay::{leave_all, steps_to_last_sync};
use crate::step::{Pick, Step};
use aw_lists::{FailingCalls, List};
use std::alloc::Global;
use std::marker::Model;

/// A disk in memory that fails at listed calls, which are counted from 0 over all four kinds, and
/// where it finds no memory (docs/FORMATS.md, "The disk model"). It keeps all its moments: each write
/// and each sync that succeeded begins one.
#[derive(Debug, Drop)]
pub struct MemDisk {
    alloc: Global,
    // The bytes at first, once a write may change the content.
    start: Option<List<u8>>,
    content: Vec<u8>,
    steps: Vec<Step>,
    calls: FailingCalls,
}

impl Model for MemDisk {
    ghost use Rattle.aw_disk.specs.MemDisk.{MemDiskState};
    ghost use Rattle.aw_disk.specs.inside.MemDiskSteps.{started, IsReplayed};

    ghost Value = { MemDiskState };

    ghost view = { λ disk. record { start = started disk.start disk.content.items; steps = disk.steps.items; failing = disk.calls.listed; calls = disk.calls.calls; faults = disk.calls.faults } };

    ghost invariant = { λ disk. IsReplayed (started disk.start disk.content.items) disk.steps.items disk.content.items };
}

impl MemDisk {
    /// The greatest length of a disk.
    const LIMIT: u64 = 1 << 62;

    /// A disk with these bytes as its content, all of them synced, which fails at each call whose
    /// number is in `failing`.
    pub fn new(bytes: List<u8>, failing: List<u64>) -> MemDisk
        ensures { result ≡ record { start = bytes; steps = []; failing = failing; calls = 0; faults = 0 } }
    {
        let content = bytes.into_vec();
        let alloc = *content.allocator();
        MemDisk {
            alloc,
            start: None,
            content,
            steps: Vec::new(alloc),
            calls: FailingCalls::new(failing),
        }
    }

    /// The content.
    pub fn bytes(&self) -> &[u8]
        ensures { result.now ≡ content_of self.now }
    {
        self.content.as_slice()
    }

    /// How many moments there were, this one included.
    pub fn moments(&self) -> u64
        ensures { result ≡ length self.now.steps + 1 }
    {
        self.steps.len() as u64 + 1
    }

    /// What a crash at a moment, counted from 0, might have left, with the picked bytes in place of
    /// those that no sync covered. `NoMemory`: there is no memory for it.
    pub fn image(&self, alloc: Global, moment: u64, pick: Pick) -> Result<List<u8>, NoMemory>
        requires { moment ≤ length self.now.steps }
        ensures picked { IfOk result (IsPicked pick self.now.start (take moment self.now.steps)) }
        ensures one { IfOk result (left_at self.now moment) }
    {
        let steps = &self.steps[..moment as usize];
        let synced = steps_to_last_sync(steps);
        let mut image = self.first().to_vec(alloc)?;
        leave_all(&mut image, Pick::Kept, &steps[..synced])?;
        leave_all(&mut image, pick, &steps[synced..])?;
        Ok(List::from_vec(image))
    }

    fn first(&self) -> &[u8]
        ensures { result.now ≡ self.now.start }
    {
        match &self.start {
            Some(start) => start.as_slice(),
            None => self.content.as_slice(),
        }
    }

    // Takes the memory first, so that a write without it leaves the disk.
    fn place(&mut self, offset: u64, bytes: &[u8]) -> Result<(), NoMemory>
        requires { offset ≤ length (content_of self.old) }
        ensures ok { OnOk result (self.new ≡ with_step self.old (Write offset bytes.now)) }
        ensures err { OnErr result (self.new ≡ self.old) }
    {
        let written = List::from_slice(self.alloc, bytes)?;
        keep_start(self.alloc, &mut self.start, self.content.as_slice())?;
        self.content.reserve(bytes.len())?;
        self.steps.push(Step::Write(offset, written))?;
        overwrite(&mut self.content, offset as usize, bytes);
        Ok(())
    }

    fn put_sync(&mut self) -> Result<(), NoMemory>
        ensures ok { OnOk result (self.new ≡ with_step self.old Sync) }
        ensures err { OnErr result (self.new ≡ self.old) }
    {
        self.steps.push(Step::Sync)?;
        Ok(())
    }
}

// Keeps a copy of the bytes at first, where there is none yet.
fn keep_start(alloc: Global, start: &mut Option<List<u8>>, content: &[u8]) -> Result<(), NoMemory>
    ensures ok { OnOk result (start.new ≡ Some (started start.old content.now)) }
    ensures err { OnErr result (start.new ≡ start.old) }
{
    if start.is_none() {
        *start = Some(List::from_slice(alloc, content)?);
    }
    Ok(())
}

impl Disk for MemDisk {
    ghost content = { λ disk. Some (content_of disk) };

    ghost faults = { λ disk. disk.faults };

    ghost clock = { λ disk. length disk.steps };

    ghost crash = { left_at };

    ghost is_an_image = { is_content-left };

    fn len(&mut self) -> Result<u64, Failed>
        ensures length { IfOk result (λ count. count ≡ length (content_of self.old)) }
        ensures limit { IfOk result (λ count. count ≤ length_limit) }

        // A listed call fails. Any other succeeds, unless the disk is longer than the limit.
        ensures later { self.old.faults ≤ self.new.faults }
        ensures cause { IsErr result → Rose self.old.faults self.new.faults }
        ensures fails { Contains self.old.failing self.old.calls → IsErr result }
        ensures only { IsErr result → Contains self.old.failing self.old.calls ⊎ length_limit < length (content_of self.old) }
        ensures ok { OnOk result (self.new ≡ counted self.old) }
        ensures err { OnErr result (self.new ≡ faulted self.old) }
    {
        if self.calls.next_fails() || self.bytes().len() as u64 > Self::LIMIT {
            self.calls.count_fault();
            return Err(Failed);
        }
        Ok(self.bytes().len() as u64)
    }

    fn read_at(&mut self, offset: u64, into: &mut [u8]) -> Result<usize, Failed>
        ensures read { IfOk result (λ count. Reads count offset (content_of self.old) into.new) }
        ensures within { IfOk result (λ count. count ≤ length into.new) }

        // A call fails exactly where it is listed.
        ensures later { self.old.faults ≤ self.new.faults }
        ensures cause { IsErr result → Rose self.old.faults self.new.faults }
        ensures fails { IsErr result ↔ Contains self.old.failing self.old.calls }
        ensures ok { OnOk result (self.new ≡ counted self.old) }
        ensures err { OnErr result (self.new ≡ faulted self.old) }
    {
        if self.calls.next_fails() {
            self.calls.count_fault();
            return Err(Failed);
        }
        Ok(read_from(self.bytes(), offset, into))
    }

    fn write_at(&mut self, offset: u64, bytes: &[u8]) -> Result<(), Failed>
        requires { offset ≤ length (content_of self.old) }
        ensures within { OnOk result (offset + length bytes.now ≤ length_limit) }

        // A listed call writes the first half, rounded up, where it finds the memory, and fails.
        ensures later { self.old.faults ≤ self.new.faults }
        ensures cause { IsErr result → Rose self.old.faults self.new.faults }
        ensures fails { Contains self.old.failing self.old.calls → IsErr result }
        ensures ok { OnOk result (self.new ≡ counted (with_step self.old (Write offset bytes.now))) }
        ensures err { OnErr result ((self.new ≡ faulted self.old) ⊎ (self.new ≡ faulted (with_step self.old (Write offset (first_half bytes.now))))) }
        ensures unlisted { OnErr result (Contains self.old.failing self.old.calls ⊎ (self.new ≡ faulted self.old)) }
    {
        let is_past = offset > Self::LIMIT || bytes.len() as u64 > Self::LIMIT - offset;
        if self.calls.next_fails() {
            let _ = self.place(offset, &bytes[..bytes.len().div_ceil(2)]);
            self.calls.count_fault();
            return Err(Failed);
        }
        if is_past || self.place(offset, bytes).is_err() {
            self.calls.count_fault();
            return Err(Failed);
        }
        Ok(())
    }

    fn sync(&mut self) -> Result<(), Failed>
        ensures later { self.old.faults ≤ self.new.faults }
        ensures cause { IsErr result → Rose self.old.faults self.new.faults }
        ensures fails { Contains self.old.failing self.old.calls → IsErr result }
        ensures ok { OnOk result (self.new ≡ counted (with_step self.old Sync)) }
        ensures err { OnErr result (self.new ≡ faulted self.old) }
    {
        if self.calls.next_fails() || self.put_sync().is_err() {
            self.calls.count_fault();
            return Err(Failed);
        }
        Ok(())
    }
}
