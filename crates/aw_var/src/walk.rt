ghost use Rattle.std.specs.Prelude.{◌≡◌};
ghost use Rattle.std.specs.Option.{option_copied};
ghost use Rattle.aw_var.specs.inside.Walks.{first_page, TakesSheet};

use crate::sheet::Sheet;
use std::collections::BTreeMap;
use std::collections::btree_map::Iter;
use std::marker::Model;

/// The sheets of a map that are still to come, by rising pages, with the next one in hand.
#[derive(Drop)]
pub struct Walk<'a> {
    next: Option<(&'a u128, &'a Sheet)>,
    rest: Iter<'a, u128, Sheet>,
}

impl<'a> Model for Walk<'a> {
    ghost use Rattle.aw_var.specs.inside.Sheets.{Sheets};

    ghost Value = { Sheets };

    ghost use Rattle.std.specs.Prelude.{◌≡◌, ◌++◌, option_to_list, None, []};
    ghost use Rattle.std.specs.Option.{option_map};
    ghost use Rattle.std.specs.Map.Iter.{deref_pair};

    ghost view = { λ walk. option_to_list (option_map deref_pair walk.next) ++ walk.rest };

    ghost invariant = { λ walk. walk.next ≡ None → walk.rest ≡ [] };
}

impl<'a> Walk<'a> {
    pub fn new(sheets: &'a BTreeMap<u128, Sheet>) -> Walk<'a>
        ensures { result ≡ sheets.now.entries }
    {
        let mut rest = sheets.iter();
        let next = rest.next();
        Walk { next, rest }
    }

    /// The page of the next sheet.
    pub fn page(&self) -> Option<u128>
        ensures { result ≡ first_page self.now }
    {
        match self.next {
            Some((page, _)) => Some(*page),
            None => None,
        }
    }

    /// The next sheet, where it is of that page.
    pub fn take_at(&mut self, page: u128) -> Option<&'a Sheet>
        ensures { TakesSheet self.old page (option_copied result) self.new }
    {
        match self.next {
            Some((number, sheet)) if *number == page => {
                self.next = self.rest.next();
                Some(sheet)
            }
            _ => None,
        }
    }
}
