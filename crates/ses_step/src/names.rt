ghost use Rattle.std.specs.Prelude.{◌≡◌, ◌∷◌, ◌++◌, [], length, slice_get, OnOk, OnErr};
ghost use Rattle.std.specs.Option.{option_copied};
ghost use Rattle.ses_step.specs.Words.{place_of};

use aw_cell::Text;
use std::alloc::{AllocError, Global};
use std::collections::HashMap;
use std::marker::Model;

/// Names in the order in which they came, which are found without regard to case. Contracts see
/// them as the list of their bytes.
#[derive(Drop)]
pub struct Names {
    alloc: Global,
    listed: Vec<Text>,
    /// The first place of each name, by its bytes in lower case.
    places: HashMap<Vec<u8>, usize>,
}

impl Model for Names {
    ghost use Rattle.std.specs.Prelude.{List as Items, ℕ};
    ghost use Rattle.ses_step.specs.NameIndex.{HasFirstPlaces};

    ghost Value = { Items (Items ℕ) };

    ghost view = { λ names. names.listed.items };

    ghost invariant = { λ names. HasFirstPlaces names.places names.listed.items };
}

impl Names {
    /// No names, which take no memory yet.
    pub fn new(alloc: Global) -> Names
        ensures { result ≡ [] }
    {
        Names {
            alloc,
            listed: Vec::new(alloc),
            places: HashMap::new(alloc),
        }
    }

    /// How many names there are.
    pub fn len(&self) -> usize
        ensures { result ≡ length self.now }
    {
        self.listed.len()
    }

    /// The names in their order, to be read.
    pub fn as_slice(&self) -> &[Text]
        ensures { result.now ≡ self.now }
    {
        self.listed.as_slice()
    }

    /// The name at a place from 0, or `None` from the length on.
    pub fn get(&self, at: usize) -> Option<&Text>
        ensures { option_copied result ≡ slice_get self.now at }
    {
        self.listed.get(at)
    }

    /// The first place of a word among the names, from 0 and without regard to case, or `None` where
    /// it isn't there. It takes no memory.
    pub fn find(&self, word: &Text) -> Option<usize>
        ensures { result ≡ place_of self.now word.now }
    {
        let mut buffer = [0; 64];
        let lowered = &mut buffer[..word.bytes().len()];
        lowered.copy_from_slice(word.bytes());
        lowered.make_ascii_lowercase();
        self.places.get(&*lowered).copied()
    }

    /// Adds a name at the end. Of names that are the same but for case the first keeps its place.
    /// Want of memory leaves the names as they were.
    pub fn push(&mut self, name: Text) -> Result<(), AllocError>
        ensures ok { OnOk result (self.new ≡ self.old ++ name ∷ []) }
        ensures err { OnErr result (self.new ≡ self.old) }
    {
        let key = name.bytes().to_ascii_lowercase(self.alloc)?;
        self.listed.reserve(1)?;
        if !self.places.contains_key(key.as_slice()) {
            self.places.insert(key, self.listed.len())?;
        }
        self.listed.push(name)?;
        Ok(())
    }
}
