ghost use Rattle.std.specs.Prelude.{◌≡◌, ◌≤◌, ◌<◌, length, slice_index};

use crate::fault::MapFault;
use crate::line::MapLine;
use crate::reading::read_map;
use aw_lists::List;
use aw_schema::Catalogue;
use std::alloc::Global;
use std::marker::Model;

/// An aggregation map: along which relations an aggregation or an allocation goes, and how. Contracts
/// see its lines and the dimension of each. See docs/LANGUAGE.md, "Aggregation maps".
#[derive(Debug, Drop)]
pub struct AggMap {
    lines: List<MapLine>,
    dimensions: List<u16>,
}

impl Model for AggMap {
    ghost use Rattle.agg_map.specs.Maps.{Map};
    ghost use Rattle.agg_map.specs.Sound.{IsSound};

    ghost Value = { Map };

    ghost view = { λ map. record { lines = map.lines; dimensions = map.dimensions } };

    ghost invariant = { λ map. IsSound map.lines map.dimensions };
}

impl AggMap {
    ghost use Rattle.std.specs.Prelude.{◌⊎◌, ◌-◌, ◌^◌, IfOk, Ok, Err};
    ghost use Rattle.agg_map.specs.Sound.{IsSound};
    ghost use Rattle.agg_map.specs.Texts.{map_in};
    ghost use Rattle.agg_map.specs.declared.fault.MapFault.{MapFault as Fault};
    ghost use Rattle.agg_map.specs.declared.fault.MapFault.TheVariants.{NoMemory};

    /// A map by its lines and the dimension of each.
    pub(crate) fn of(lines: List<MapLine>, dimensions: List<u16>) -> AggMap
        requires sound { IsSound lines dimensions }
        ensures { result ≡ record { lines = lines; dimensions = dimensions } }
    {
        AggMap { lines, dimensions }
    }

    /// The map that a text is over the objects of a catalogue. The text has fewer than 2^32 - 1 bytes;
    /// its lines are kept apart by LF.
    ///
    /// It is refused at its first line with a fault of the language, and, where it has none, at its
    /// first line with another fault. `Syntax` is the line and the column of the first token with which
    /// the text begins no lines of a map; where they end too early, it is the line behind the last one,
    /// column 1. A line that begins with END is refused at that word. `Unknown` is a name that no
    /// object has, as it is written. `WrongKind` is an object, by its own name, that is no relation from
    /// a dimension to itself, or whose line is too many: none stands beside a line with an operator of
    /// an allocation. `Repeat` is a dimension, by its own name, that an earlier line has. Lines count
    /// from 1 in the text. `NoMemory` is for want of memory. See docs/LANGUAGE.md, "Aggregation maps".
    #[tactic(auto, using(crate::proofs::Blocks::value, crate::proofs::Blocks::fault))]
    pub fn read(alloc: Global, text: &[u8], catalogue: &Catalogue) -> Result<AggMap, MapFault>
        requires short { length text.now < 2 ^ 32 - 1 }
        ensures value { IfOk result (λ map. map_in catalogue.now text.now ≡ Ok map) }
        ensures fault { (f : Fault) → result ≡ Err f → (f ≡ NoMemory) ⊎ (map_in catalogue.now text.now ≡ Err f) }
    {
        read_map(alloc, text, catalogue)
    }

    /// Its lines in order: at least one, and of several none has an operator of an allocation.
    pub fn lines(&self) -> &List<MapLine>
        ensures value { result.now ≡ self.now.lines }
        ensures sound { IsSound self.now.lines self.now.dimensions }
    {
        &self.lines
    }

    /// The number of the dimension of a line, by the line's number from 0. No two lines have the same.
    pub fn dimension(&self, line: u16) -> u16
        requires there { line < length self.now.lines }
        ensures value { result ≡ slice_index self.now.dimensions line }
    {
        self.dimensions.as_slice()[line as usize]
    }
}
