ghost use Rattle.std.specs.Prelude.{◌≡◌, ◌≢◌, ◌↔◌, ◌≤◌, [], length, IsSome, is_some, IsOk, IfOk, IfErr, IfSome, OnOk, OnErr, None, Some, Err, slice_get};
ghost use Rattle.std.specs.Option.{option_map, ForSome};
ghost use Rattle.aw_dim.specs.DimensionState.{DimensionState, IsDimension, slot_of, name_of, position_of, HasName, HasSlot};
ghost use Rattle.aw_dim.specs.Edits.{empty, added, removed, renamed, moved};
ghost use Rattle.aw_dim.specs.inside.Index.{IsAt};

use crate::change::{name_anew, put, shift, take};
use crate::fault::DimFault;
use crate::index::{mark_places, name_by, place_of, rank, slot_at};
use crate::making::{are_listed, are_placed, by_name, names_rise};
use aw_cell::Text;
use aw_lists::List;
use std::alloc::{AllocError, Global};
use std::fmt;
use std::marker::Model;

/// The values of a dimension, each with a slot that no other value has or had, and a name that no
/// other value has (docs/LANGUAGE.md, "Dimensions"). Contracts see it as its values in their order and the next slot.
#[derive(Drop)]
pub struct Dimension {
    alloc: Global,
    entries: Vec<(u16, Text)>,
    /// For each slot that was given the place of its value, where there is one.
    places: Vec<u16>,
    /// The slots of the values, in rising order of their names.
    by_name: Vec<u16>,
}

impl Model for Dimension {
    ghost use Rattle.std.specs.Prelude.{length};
    ghost use Rattle.aw_dim.specs.DimensionState.{DimensionState};

    ghost Value = { DimensionState };

    ghost use Rattle.aw_dim.specs.inside.Index.{IsIndexed};

    ghost view = { λ d. record { entries = d.entries.items; next = length d.places.items } };

    ghost invariant = { λ d. IsIndexed d.entries.items d.places.items d.by_name.items };
}

impl PartialEq for Dimension {
    ghost use Rattle.std.specs.Prelude.{◌≡◌, ◌↔◌, IsTrue};
    ghost use Rattle.aw_dim.specs.SameValues.{same_values, same_values_partial_equivalence};

    ghost eq = { same_values };

    ghost laws = { same_values_partial_equivalence };

    fn eq(&self, other: &Dimension) -> bool
        ensures same { result ≡ same_values self.now other.now }
        ensures equal { IsTrue result ↔ (self.now ≡ other.now) }
    {
        self.next() == other.next() && self.entries() == other.entries()
    }
}

impl Eq for Dimension {
    ghost use Rattle.aw_dim.specs.SameValues.{same_values_equivalence};

    ghost laws = { same_values_equivalence };
}

impl fmt::Debug for Dimension {
    fn fmt<W: fmt::Write>(&self, f: &mut fmt::Formatter<W>) -> fmt::Result {
        f.debug_list().entries(self.entries()).finish()
    }
}

impl Dimension {
    /// How many slots there are at most.
    const MOST: usize = 65_536;

    /// A dimension without values, of which no slot was given. It keeps its allocator.
    pub fn new(alloc: Global) -> Dimension
        ensures { result ≡ empty }
    {
        Dimension {
            alloc,
            entries: Vec::new(alloc),
            places: Vec::new(alloc),
            by_name: Vec::new(alloc),
        }
    }

    /// The dimension with these values, each with its slot and its name, in this order, and this next
    /// slot, or `None` exactly where they are no value of a dimension: where two slots or two names
    /// are the same, a slot isn't below the next one, a name is empty, or the next slot is above
    /// 65,536. The only error is want of memory.
    pub fn of(
        alloc: Global,
        entries: List<(u16, Text)>,
        next: u32,
    ) -> Result<Option<Dimension>, AllocError>
        ensures value { IfOk result (λ made. IfSome made (λ dimension. dimension ≡ record { entries = entries; next = next })) }
        ensures exact { IfOk result (λ made. IsSome made ↔ IsDimension (record { entries = entries; next = next })) }
    {
        if !are_listed(entries.as_slice(), next) {
            return Ok(None);
        }
        let entries = entries.into_vec();
        let mut places = vec![in alloc; 0; next as usize]?;
        mark_places(entries.as_slice(), &mut places, 0);
        if !are_placed(entries.as_slice(), places.as_slice()) {
            return Ok(None);
        }
        let by_name = by_name(alloc, entries.as_slice(), places.as_slice())?;
        if !names_rise(entries.as_slice(), places.as_slice(), by_name.as_slice()) {
            return Ok(None);
        }
        Ok(Some(Dimension {
            alloc,
            entries,
            places,
            by_name,
        }))
    }

    /// How many values it has, 0 to 65,536.
    pub fn len(&self) -> u32
        ensures value { result ≡ length self.now.entries }
        ensures most { result ≤ 65536 }
    {
        self.entries.len() as u32
    }

    /// The slot that the next value gets, or 65,536 where all were given.
    pub fn next(&self) -> u32
        ensures value { result ≡ self.now.next }
        ensures valid { IsDimension self.now }
    {
        self.places.len() as u32
    }

    /// Its values in their order, each with its slot and its name.
    pub fn entries(&self) -> &[(u16, Text)]
        ensures { result.now ≡ self.now.entries }
    {
        self.entries.as_slice()
    }

    /// The slot of the value at a place from 0, or `None` from the length on.
    pub fn at(&self, place: u32) -> Option<u16>
        ensures { result ≡ option_map (λ entry. entry.0) (slice_get self.now.entries place) }
    {
        let (slot, _) = self.entries.get(place as usize)?;
        Some(*slot)
    }

    fn place(&self, slot: u16) -> Option<u16>
        ensures value { result ≡ position_of self.now slot }
        ensures here { ForSome result (λ place. IsAt self.now.entries place slot) }
        ensures known { is_some result ≡ is_some (name_of self.now slot) }
    {
        place_of(self.entries.as_slice(), self.places.as_slice(), slot)
    }

    /// The place from 0 of the value with a slot, or `None` where there is none. It takes no memory.
    pub fn position_of(&self, slot: u16) -> Option<u32>
        ensures { result ≡ position_of self.now slot }
    {
        let place = self.place(slot)?;
        Some(u32::from(place))
    }

    /// The name of the value with a slot, or `None` where there is none. It takes no memory.
    pub fn name_of(&self, slot: u16) -> Option<Text>
        ensures { result ≡ name_of self.now slot }
    {
        name_by(self.entries.as_slice(), self.place(slot))
    }

    /// The slot of the value with a name, or `None` where there is none. It takes no memory.
    pub fn slot_of(&self, name: &Text) -> Option<u16>
        ensures { result ≡ slot_of self.now name.now }
    {
        let (entries, places) = (self.entries.as_slice(), self.places.as_slice());
        let at = rank(entries, places, self.by_name.as_slice(), name.bytes());
        slot_at(entries, places, self.by_name.as_slice(), at, name.bytes())
    }

    /// Adds a value at a place, from 0 to the length, and answers its slot, which is the next one.
    /// `Duplicate` where a value has the name, else `Full` where all slots were given; the dimension
    /// is then as before.
    pub fn add(&mut self, name: Text, place: u32) -> Result<u16, DimFault>
        requires named { name ≢ [] }
        requires within { place ≤ length self.old.entries }
        ensures slot { IfOk result (λ slot. slot ≡ self.old.next) }
        ensures ok { OnOk result (self.new ≡ added self.old name place) }
        ensures err { OnErr result (self.new ≡ self.old) }
        ensures duplicate { (result ≡ Err DimFault.Duplicate) ↔ HasName self.old name }
        ensures full { (result ≡ Err DimFault.Full) ↔ ((slot_of self.old name ≡ None) × (self.old.next ≡ 65536)) }
        ensures no_other { result ≢ Err DimFault.NoValue }
    {
        if self.slot_of(&name).is_some() {
            return Err(DimFault::Duplicate);
        }
        if self.places.len() == Self::MOST {
            return Err(DimFault::Full);
        }
        let (entries, places, by_name) = (&mut self.entries, &mut self.places, &mut self.by_name);
        let slot = put(entries, places, by_name, place as usize, name)?;
        Ok(slot)
    }

    /// Takes the value with a slot away. `NoValue` where there is none. It takes no memory.
    pub fn remove(&mut self, slot: u16) -> Result<(), DimFault>
        ensures ok { OnOk result (self.new ≡ removed self.old slot) }
        ensures err { OnErr result (self.new ≡ self.old) }
        ensures some { IsOk result ↔ HasSlot self.old slot }
        ensures no_value { IfErr result (λ fault. fault ≡ DimFault.NoValue) }
    {
        let Some(place) = self.place(slot) else {
            return Err(DimFault::NoValue);
        };
        let place = usize::from(place);
        take(
            &mut self.entries,
            &mut self.places,
            &mut self.by_name,
            place,
        );
        Ok(())
    }

    /// Gives the value with a slot another name. `NoValue` where there is none, else `Duplicate` where
    /// a value has the name; the dimension is then as before. It takes no memory.
    pub fn rename(&mut self, slot: u16, name: Text) -> Result<(), DimFault>
        requires { name ≢ [] }
        ensures ok { OnOk result (self.new ≡ renamed self.old slot name) }
        ensures err { OnErr result (self.new ≡ self.old) }
        ensures no_value { (result ≡ Err DimFault.NoValue) ↔ (name_of self.old slot ≡ None) }
        ensures duplicate { (result ≡ Err DimFault.Duplicate) ↔ (HasSlot self.old slot × HasName self.old name) }
        ensures some { IsOk result ↔ (HasSlot self.old slot × (slot_of self.old name ≡ None)) }
    {
        let Some(place) = self.place(slot) else {
            return Err(DimFault::NoValue);
        };
        let taken = self.slot_of(&name).is_some();
        if taken {
            return Err(DimFault::Duplicate);
        }
        let (entries, places) = (&mut self.entries, self.places.as_slice());
        name_anew(
            entries,
            places,
            &mut self.by_name,
            usize::from(place),
            slot,
            name,
        );
        Ok(())
    }

    /// Moves the value with a slot to a place, from 0 to the length, among the other values, or behind
    /// them where they are fewer. `NoValue` where there is none. It takes no memory.
    pub fn move_to(&mut self, slot: u16, place: u32) -> Result<(), DimFault>
        requires { place ≤ length self.old.entries }
        ensures ok { OnOk result (self.new ≡ moved self.old slot place) }
        ensures err { OnErr result (self.new ≡ self.old) }
        ensures some { IsOk result ↔ HasSlot self.old slot }
        ensures no_value { IfErr result (λ fault. fault ≡ DimFault.NoValue) }
    {
        let Some(from) = self.place(slot) else {
            return Err(DimFault::NoValue);
        };
        let last = self.entries.len() - 1;
        let to = (place as usize).min(last);
        shift(&mut self.entries, &mut self.places, usize::from(from), to);
        Ok(())
    }

    /// A dimension of the same value. The only error is want of memory.
    pub fn copied(&self) -> Result<Dimension, AllocError>
        ensures { IfOk result (λ dimension. dimension ≡ self.now) }
    {
        Ok(Dimension {
            alloc: self.alloc,
            entries: Vec::from_slice(self.alloc, self.entries.as_slice())?,
            places: Vec::from_slice(self.alloc, self.places.as_slice())?,
            by_name: Vec::from_slice(self.alloc, self.by_name.as_slice())?,
        })
    }
}
