// The place of the first item with each name.
ghost use Rattle.std.specs.Prelude.{◌≡◌, [], ◌∷◌, ◌++◌, List, Some, OnOk, IfOk};
ghost use Rattle.f2_bytes.specs.Directory.{Item};
ghost use Rattle.f2_items.specs.FirstPlaces.{first_place, HoldsFirst};

use std::alloc::{AllocError, Global};
use std::collections::BTreeMap;

/// The place of the first item of a directory with each name.
#[derive(Drop)]
pub struct NamePlaces {
    alloc: Global,
    places: BTreeMap<Vec<u8>, u64>,
}

impl NamePlaces {
    /// No items so far.
    pub fn new(alloc: Global) -> NamePlaces
        ensures { HoldsFirst [] result }
    {
        NamePlaces {
            alloc,
            places: BTreeMap::new(alloc),
        }
    }

    /// Takes an item with this name at a place, and gives the place of the first item with the name.
    pub fn first(&mut self, name: &[u8], place: u64) -> Result<u64, AllocError>
        ensures holds { OnOk result ((items : List Item) (item : Item) → item.name ≡ name.now → item.place ≡ place → HoldsFirst items self.old
            → HoldsFirst (items ++ item ∷ []) self.new) }
        ensures first { IfOk result (λ first. (items : List Item) (item : Item) → item.name ≡ name.now → item.place ≡ place → HoldsFirst items self.old
            → first_place item.name (items ++ item ∷ []) ≡ Some first) }
    {
        match self.places.get(name).copied() {
            Some(first) => Ok(first),
            None => {
                let key = name.to_vec(self.alloc)?;
                self.places.insert(key, place)?;
                Ok(place)
            }
        }
    }
}
