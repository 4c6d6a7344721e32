// The parts 1 to 5 of rule 10, which look at the items of directories one by one.
ghost use Rattle.std.specs.Prelude.{◌≡◌, ℕ, false, List, [], ◌∷◌, ◌++◌, Option, Some, OnOk};
ghost use Rattle.f2_bytes.specs.Directory.{Item};
ghost use Rattle.f2_bytes.specs.Check.{Defect as FormatDefect};
ghost use Rattle.f2_items.specs.FirstPlaces.{first_place};
ghost use Rattle.f2_items.specs.ItemComparisons.{ItemsCompared, IsLegal, StandsIn, BucketCompared};
ghost use Rattle.f2_view.specs.Directories.{legal};

use crate::directory_block::InBlock;
use f2_defects::Collector;
use f2_dent::name_hash;
use std::alloc::{AllocError, Global};

/// An item of a directory whose name is legal.
#[derive(Clone, Copy)]
pub struct LegalItem<'a> {
    /// 214 times the number of its block in the directory plus its slot there; in an inline directory its slot.
    pub place: u64,
    /// The hash that it says.
    pub hash: u32,
    /// The number of the inode that it names.
    pub ino: u32,
    /// The type of that inode that it says.
    pub kind: u8,
    pub name: &'a [u8],
}

/// The defects by these parts.
#[derive(Drop)]
pub struct ItemRules {
    pub illegal: Collector,
    pub twins: Collector,
    pub hashes: Collector,
    pub buckets: Collector,
    pub kinds: Collector,
}

impl ItemRules {
    /// No items so far.
    pub fn new(alloc: Global) -> ItemRules
        ensures { (kind : ℕ → ℕ) (ino : ℕ) (depth : Option ℕ) → ItemsCompared (λ _. []) kind ino depth [] result }
    {
        ItemRules {
            illegal: Collector::new(alloc, 1),
            twins: Collector::new(alloc, 2),
            hashes: Collector::new(alloc, 3),
            buckets: Collector::new(alloc, 4),
            kinds: Collector::new(alloc, 5),
        }
    }

    /// Takes an item of a directory that isn't legal: its place, and the length of its name.
    pub fn illegal(&mut self, directory: u32, place: u64, len: u16) -> Result<(), AllocError>
        ensures { OnOk result ((before : ℕ → List FormatDefect) (kind : ℕ → ℕ) (depth : Option ℕ) (items : List Item) (item : Item)
            → item.is_legal ≡ false → item.place ≡ place → item.len ≡ len
            → ItemsCompared before kind directory depth items self.old → ItemsCompared before kind directory depth (items ++ item ∷ []) self.new) }
    {
        self.illegal
            .compare(u64::from(directory), place, u64::from(len), 0, true)?;
        Ok(())
    }

    /// Takes an item of a directory that is legal, with the place of the first item of its name, the type of the inode that
    /// it names, and the block that it stands in, if it stands in one.
    pub fn legal(
        &mut self,
        directory: u32,
        item: &LegalItem,
        first: u64,
        kind: u64,
        block: Option<InBlock>,
    ) -> Result<(), AllocError>
        ensures { OnOk result ((before : ℕ → List FormatDefect) (kind_of : ℕ → ℕ) (depth : Option ℕ) (items : List Item) (x : Item)
            → IsLegal x item.now → first_place x.name (legal (items ++ x ∷ [])) ≡ Some first → kind ≡ kind_of x.ino → StandsIn depth x.place block
            → ItemsCompared before kind_of directory depth items self.old → ItemsCompared before kind_of directory depth (items ++ x ∷ []) self.new) }
    {
        let directory = u64::from(directory);
        let hash = name_hash(item.name);
        self.twins.same(directory, item.place, first, item.place)?;
        self.hashes.same(directory, item.place, u64::from(item.hash), u64::from(hash))?;
        self.buckets(directory, item.place, hash, block)?;
        self.kinds
            .same(directory, item.place, u64::from(item.kind), kind)?;
        Ok(())
    }

    // Compares the bucket of the block that an item stands in with that of its hash.
    fn buckets(
        &mut self,
        directory: u64,
        place: u64,
        hash: u32,
        block: Option<InBlock>,
    ) -> Result<(), AllocError>
        ensures others { self.new ≡ record self.old { buckets = self.new.buckets } }
        ensures part { self.new.buckets.part ≡ self.old.buckets.part }
        ensures compares { OnOk result (BucketCompared self.old.buckets self.new.buckets directory place hash block) }
    {
        match block {
            Some(block) => {
                self.buckets
                    .same(directory, place, block.bucket, block.bucket_for(hash))
            }
            None => Ok(()),
        }
    }
}
