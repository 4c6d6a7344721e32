// How far the items of a directory reach.
ghost use Rattle.std.specs.Prelude.{◌≤◌, ◌^◌};

use crate::directory_block::InBlock;

/// One past the greatest level, and one past the greatest block, in which an item stands.
#[derive(Clone, Copy)]
pub struct Reach {
    pub levels: u32,
    pub blocks: u64,
    ghost small: { blocks ≤ 2 ^ 32 },
}

impl Reach {
    ghost use Rattle.std.specs.Prelude.{◌≡◌, ℕ, List, [], ◌∷◌, ◌++◌, Option, Some};
    ghost use Rattle.f2_bytes.specs.Directory.{Item};
    ghost use Rattle.f2_items.specs.ItemComparisons.{StandsIn};
    ghost use Rattle.f2_items.specs.OpenDirectories.{HoldsReach, ReachesIn};

    /// No items so far.
    pub fn new() -> Reach
        ensures { (depth : Option ℕ) → ReachesIn depth [] result }
    {
        Reach {
            levels: 0,
            blocks: 0,
        }
    }

    // Takes an item in a block.
    fn take_in(&mut self, block: InBlock)
        ensures { (depth : ℕ) (items : List Item) (item : Item) → StandsIn (Some depth) item.place (Some block) → HoldsReach depth items self.old → HoldsReach depth (items ++ item ∷ []) self.new }
    {
        self.levels = self.levels.max(block.level + 1);
        self.blocks = self.blocks.max(block.number + 1);
    }

    /// Takes an item in a block; one that stands in the inode doesn't count.
    pub fn take(&mut self, block: Option<InBlock>)
        ensures { (depth : Option ℕ) (items : List Item) (item : Item) → StandsIn depth item.place block → ReachesIn depth items self.old → ReachesIn depth (items ++ item ∷ []) self.new }
    {
        match block {
            Some(block) => self.take_in(block),
            None => {}
        }
    }
}
