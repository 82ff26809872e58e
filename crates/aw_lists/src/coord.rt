ghost use Rattle.std.specs.Prelude.{◌≡◌, ◌≤◌, ◌<◌, ◌^◌, ◌↔◌, length, IsTrue, IsSome, IfSome};
ghost use Rattle.aw_lists.specs.Coord.{packed};

use std::cmp::Ordering;
use std::fmt;
use std::marker::Model;

/// The slots of a cell's values, one for each dimension, 0 to 6 of them (docs/LANGUAGE.md,
/// "Coordinates"). Coordinates are ordered by the first slot that differs, and then by their lengths.
#[derive(Clone, Copy)]
pub struct Coord {
    slots: [u16; 6],
    len: u8,
}

impl Model for Coord {
    ghost use Rattle.std.specs.Prelude.{List, ℕ, length, take};
    ghost use Rattle.aw_lists.specs.inside.PaddedCoord.{IsPadded, padded, padded-slots, length-slots};

    ghost Value = { List ℕ };

    ghost view = { λ c. take c.len c.slots };

    ghost invariant = { λ c. IsPadded c.slots c.len };

    ghost inverse = { λ l. record { slots = padded l; len = length l } };

    ghost inverse_ok = { λ c h i. record { slots = padded-slots c.slots c.len h i; len = length-slots c.slots c.len h i } };
}

impl PartialEq for Coord {
    ghost use Rattle.std.specs.Prelude.{◌≡◌, ◌↔◌, IsTrue};
    ghost use Rattle.std.specs.Str.{bytes_eq};
    ghost use Rattle.std.specs.Cmp.{partial_equiv_from_equiv};
    ghost use Rattle.std.proofs.lemmas.Cmp.{nat_list_eq_equiv};

    ghost eq = { bytes_eq };

    ghost laws = { partial_equiv_from_equiv nat_list_eq_equiv };

    fn eq(&self, other: &Coord) -> bool
        ensures same { result ≡ bytes_eq self.now other.now }
        ensures equal { IsTrue result ↔ (self.now ≡ other.now) }
    {
        self.slots() == other.slots()
    }
}

impl Eq for Coord {
    ghost use Rattle.std.proofs.lemmas.Cmp.{nat_list_eq_equiv};

    ghost laws = { nat_list_eq_equiv };
}

impl PartialOrd for Coord {
    ghost use Rattle.std.specs.Prelude.{Some};
    ghost use Rattle.std.specs.Ordering.{nat_cmp};
    ghost use Rattle.std.specs.Cmp.Lexicographic.{slice_cmp, texts_po};

    ghost partial_cmp = { λ one other. Some (slice_cmp nat_cmp one other) };

    ghost laws = { texts_po };

    fn partial_cmp(&self, other: &Coord) -> Option<Ordering> {
        Some(self.cmp(other))
    }
}

impl Ord for Coord {
    ghost use Rattle.std.specs.Prelude.{refl};
    ghost use Rattle.std.specs.Ordering.{nat_cmp};
    ghost use Rattle.std.specs.Cmp.Lexicographic.{slice_cmp, nat_list_cmp_total, texts_ties};

    ghost cmp = { slice_cmp nat_cmp };

    ghost total = { nat_list_cmp_total };

    ghost matches_partial_cmp = { λ _ _. refl };

    ghost matches_eq = { texts_ties };

    fn cmp(&self, other: &Coord) -> Ordering {
        self.slots().cmp(other.slots())
    }
}

impl fmt::Debug for Coord {
    fn fmt<W: fmt::Write>(&self, f: &mut fmt::Formatter<W>) -> fmt::Result {
        f.debug_list().entries(self.slots()).finish()
    }
}

impl Coord {
    /// The most slots that there are.
    const MOST: usize = 6;

    /// These slots as a coordinate, or `None` where they are more than 6.
    pub fn of(slots: &[u16]) -> Option<Coord>
        ensures value { IfSome result (λ coord. coord ≡ slots.now) }
        ensures some { IsSome result ↔ (length slots.now ≤ 6) }
    {
        if slots.len() > Self::MOST {
            return None;
        }
        let mut padded = [0; Self::MOST];
        padded[..slots.len()].copy_from_slice(slots);
        Some(Coord {
            slots: padded,
            len: slots.len() as u8,
        })
    }

    /// Its slots, 0 to 6.
    pub fn slots(&self) -> &[u16]
        ensures value { result.now ≡ self.now }
        ensures most { length result.now ≤ 6 }
    {
        &self.slots[..self.len as usize]
    }

    /// The number that its slots write in base 65,536, beginning with the highest digit.
    pub fn pack(&self) -> u128
        ensures value { result ≡ packed self.now }
        ensures below { result < 65536 ^ length self.now }
    {
        let mut number = 0;
        for slot in self.slots() {
            number = number * 65536 + u128::from(*slot);
        }
        number
    }
}
