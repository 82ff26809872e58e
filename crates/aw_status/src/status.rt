ghost use Rattle.std.specs.Prelude.{◌≡◌, ◌≢◌, ℕ, List, [], Err, IfOk, IfErr, OnOk, OnErr};
ghost use Rattle.aw_status.specs.Rules.{all_slots, joined, limited_to, added, kept, removed, complement, AreValues};
ghost use Rattle.aw_status.specs.inside.Marks.{AreMarks, IsBelow};

use crate::fault::StatusFault;
use crate::marks::{chosen, join, marks_of};
use aw_dim::Dimension;
use std::alloc::{AllocError, Global};
use std::marker::Model;

/// The values of a dimension that are selected, by their slots, in the order in which statements go
/// over them (docs/LANGUAGE.md, "Dimensions").
#[derive(Drop)]
pub struct Status {
    alloc: Global,
    slots: Vec<u16>,
}

impl Model for Status {
    ghost use Rattle.std.specs.Prelude.{List, ℕ};

    ghost Value = { List ℕ };

    ghost view = { λ status. status.slots.items };
}

/// The slots of all values, in the dimension's order.
fn all_slots(alloc: Global, dimension: &Dimension) -> Result<Vec<u16>, AllocError>
    ensures { IfOk result (λ slots. slots.items ≡ all_slots dimension.now) }
{
    let entries = dimension.entries();
    entries.iter().map(|entry| entry.0).collect(alloc)
}

/// How many slots a dimension has given.
fn room(dimension: &Dimension) -> usize
    ensures { (slots : List ℕ) → AreValues dimension.now slots → IsBelow result slots }
{
    dimension.next() as usize
}

/// Those slots that are in a list.
fn listed(
    alloc: Global,
    dimension: &Dimension,
    slots: &[u16],
    list: &[u16],
) -> Result<Vec<u16>, AllocError>
    requires slots { AreValues dimension.now slots.now }
    requires list { AreValues dimension.now list.now }
    ensures { IfOk result (λ listed. listed.items ≡ kept slots.now list.now) }
{
    let marks = marks_of(alloc, room(dimension), list)?;
    chosen(alloc, slots, marks.as_slice(), true)
}

/// Those slots that aren't in a list.
fn unlisted(
    alloc: Global,
    dimension: &Dimension,
    slots: &[u16],
    list: &[u16],
) -> Result<Vec<u16>, AllocError>
    requires slots { AreValues dimension.now slots.now }
    requires list { AreValues dimension.now list.now }
    ensures { IfOk result (λ unlisted. unlisted.items ≡ removed slots.now list.now) }
{
    let marks = marks_of(alloc, room(dimension), list)?;
    chosen(alloc, slots, marks.as_slice(), false)
}

/// A list of slots, and behind them those of another that aren't there yet.
fn extended(
    alloc: Global,
    dimension: &Dimension,
    slots: &[u16],
    list: &[u16],
) -> Result<Vec<u16>, AllocError>
    requires slots { AreValues dimension.now slots.now }
    requires list { AreValues dimension.now list.now }
    ensures { IfOk result (λ extended. extended.items ≡ joined slots.now list.now) }
{
    let mut extended = Vec::from_slice(alloc, slots)?;
    let mut marks = marks_of(alloc, room(dimension), slots)?;
    join(&mut extended, &mut marks, list)?;
    Ok(extended)
}

impl Status {
    /// All values of a dimension. The only error is want of memory.
    pub fn all(alloc: Global, dimension: &Dimension) -> Result<Status, AllocError>
        ensures { IfOk result (λ status. status ≡ all_slots dimension.now) }
    {
        let slots = all_slots(alloc, dimension)?;
        Ok(Status { alloc, slots })
    }

    /// The slots of its values.
    pub fn slots(&self) -> &[u16]
        ensures { result.now ≡ self.now }
    {
        self.slots.as_slice()
    }

    fn set(&mut self, slots: Vec<u16>) -> Result<(), StatusFault>
        ensures ok { OnOk result (self.new ≡ slots.items) }
        ensures some { OnOk result (slots.items ≢ []) }
        ensures err { OnErr result (self.new ≡ self.old) }
        ensures null { OnErr result (slots.items ≡ []) }
    {
        if slots.as_slice().is_empty() {
            return Err(StatusFault::NullStatus);
        }
        self.slots = slots;
        Ok(())
    }

    /// TO: the values of the list, each at its first place. `NullStatus` where there is none; the status
    /// is then as before, as after want of memory. The list has values of the dimension alone.
    pub fn to(&mut self, dimension: &Dimension, list: &[u16]) -> Result<(), StatusFault>
        requires status { AreValues dimension.now self.old }
        requires list { AreValues dimension.now list.now }
        ensures ok { OnOk result (self.new ≡ limited_to list.now) }
        ensures some { OnOk result (limited_to list.now ≢ []) }
        ensures err { OnErr result (self.new ≡ self.old) }
        ensures null { result ≡ Err StatusFault.NullStatus → limited_to list.now ≡ [] }
    {
        let slots = extended(self.alloc, dimension, &[], list)?;
        self.set(slots)
    }

    /// ADD: its values and then those of the list that it lacks, each once. `NullStatus` where there is
    /// none; the status is then as before, as after want of memory. Status and list have values of the
    /// dimension alone.
    pub fn add(&mut self, dimension: &Dimension, list: &[u16]) -> Result<(), StatusFault>
        requires status { AreValues dimension.now self.old }
        requires list { AreValues dimension.now list.now }
        ensures ok { OnOk result (self.new ≡ added self.old list.now) }
        ensures some { OnOk result (added self.old list.now ≢ []) }
        ensures err { OnErr result (self.new ≡ self.old) }
        ensures null { result ≡ Err StatusFault.NullStatus → added self.old list.now ≡ [] }
    {
        let slots = extended(self.alloc, dimension, self.slots.as_slice(), list)?;
        self.set(slots)
    }

    /// KEEP: those of its values that are in the list, in its own order. `NullStatus` where there is
    /// none; the status is then as before, as after want of memory. Status and list have values of the
    /// dimension alone.
    pub fn keep(&mut self, dimension: &Dimension, list: &[u16]) -> Result<(), StatusFault>
        requires status { AreValues dimension.now self.old }
        requires list { AreValues dimension.now list.now }
        ensures ok { OnOk result (self.new ≡ kept self.old list.now) }
        ensures some { OnOk result (kept self.old list.now ≢ []) }
        ensures err { OnErr result (self.new ≡ self.old) }
        ensures null { result ≡ Err StatusFault.NullStatus → kept self.old list.now ≡ [] }
    {
        let slots = listed(self.alloc, dimension, self.slots.as_slice(), list)?;
        self.set(slots)
    }

    /// REMOVE: those of its values that aren't in the list. `NullStatus` where there is none; the status
    /// is then as before, as after want of memory. Status and list have values of the dimension alone.
    pub fn remove(&mut self, dimension: &Dimension, list: &[u16]) -> Result<(), StatusFault>
        requires status { AreValues dimension.now self.old }
        requires list { AreValues dimension.now list.now }
        ensures ok { OnOk result (self.new ≡ removed self.old list.now) }
        ensures some { OnOk result (removed self.old list.now ≢ []) }
        ensures err { OnErr result (self.new ≡ self.old) }
        ensures null { result ≡ Err StatusFault.NullStatus → removed self.old list.now ≡ [] }
    {
        let slots = unlisted(self.alloc, dimension, self.slots.as_slice(), list)?;
        self.set(slots)
    }

    /// COMPLEMENT: all values of the dimension that aren't in the list, in the dimension's order.
    /// `NullStatus` where there is none; the status is then as before, as after want of memory. The list
    /// has values of the dimension alone.
    pub fn complement(&mut self, dimension: &Dimension, list: &[u16]) -> Result<(), StatusFault>
        requires status { AreValues dimension.now self.old }
        requires list { AreValues dimension.now list.now }
        ensures ok { OnOk result (self.new ≡ complement dimension.now list.now) }
        ensures some { OnOk result (complement dimension.now list.now ≢ []) }
        ensures err { OnErr result (self.new ≡ self.old) }
        ensures null { result ≡ Err StatusFault.NullStatus → complement dimension.now list.now ≡ [] }
    {
        let all = all_slots(self.alloc, dimension)?;
        let slots = unlisted(self.alloc, dimension, all.as_slice(), list)?;
        self.set(slots)
    }
}
