//! Where a place is.
ghost use Rattle.std.specs.Prelude.{◌≡◌, ◌≤◌, length, take};
ghost use Rattle.dim_maintain.specs.Maintained.{count_at, count_before};

use aw_cell::Text;
use aw_dim::Dimension;
use dml_tree::Place;

fn count_before(name: &Text, entries: &[(u16, Text)]) -> usize
    ensures value { result ≡ count_before name.now entries.now }
    ensures within { result ≤ length entries.now }
{
    entries.iter().take_while(|entry| entry.1 != *name).count()
}

fn count_at(place: &Place, entries: &[(u16, Text)]) -> usize
    requires { length entries.now ≤ 65536 }
    ensures { result ≡ count_at place.now entries.now }
{
    match place {
        Place::First => 0,
        Place::Last => entries.len(),
        Place::Before(name) => count_before(name, entries),
        Place::After(name) => count_before(name, entries) + 1,
    }
}

/// How many of so many first values stand before a place, which is by one of them.
pub fn place_among(place: &Place, dimension: &Dimension, count: u32) -> u32
    requires within { count ≤ length dimension.now.entries }
    requires few { count ≤ 65536 }
    requires known { count_at place.now (take count dimension.now.entries) ≤ count }
    ensures { result ≡ count_at place.now (take count dimension.now.entries) }
{
    count_at(place, &dimension.entries()[..count as usize]) as u32
}
