// What is kept of the items of all directories.
ghost use Rattle.std.specs.Prelude.{◌≡◌, ℕ, ◌+◌, ◌*◌, ◌/◌, ◌<◌, ◌≤◌, ◌^◌, true, length, List, [], ◌∷◌, ◌++◌, map, OnOk};
ghost use Rattle.f2_bytes.specs.Bytes.{Image};
ghost use Rattle.f2_bytes.specs.Bytes.{Block as FormatBlock};
ghost use Rattle.f2_bytes.specs.Directory.{scan, inline_slots};
ghost use Rattle.f2_bytes.specs.Node.{is_inline, inline_area, inline_length};
ghost use Rattle.f2_bytes.specs.Directory.{Item as FormatItem};
ghost use Rattle.f2_bytes.specs.Check.{Defect as FormatDefect};
ghost use Rattle.f2_items.specs.Directories.{HasRead, items_with};
ghost use Rattle.f2_items.specs.ItemComparisons.{IsLegal, StandsIn};
ghost use Rattle.f2_survey.specs.Known.{IsKnown};
ghost use Rattle.f2_items.specs.Namings.{Naming};
ghost use Rattle.f2_items.specs.OpenDirectories.{depth_of, FitsDepth, LiesIn};
ghost use Rattle.f2_view.specs.Directories.{shifted, kept, IsNamed};

use crate::directory_block::InBlock;
use crate::name_counts::Tallies;
use crate::open_directory::OpenDirectory;
use crate::rule_10_items::{ItemRules, LegalItem};
use f2_dent::{DirScan, Item};
use f2_disk::Block;
use f2_node::inline_range;
use f2_survey::Nodes;
use std::alloc::AllocError;

// The slots of a block.
const SLOTS: usize = 214;

/// What is kept of the items of all directories: the names of each file, and the defects of single items.
#[derive(Drop)]
pub struct Names {
    pub tallies: Tallies,
    pub rules: ItemRules,
}

impl Names {
    // Takes an item of a directory that is legal.
    fn legal(
        &mut self,
        nodes: &Nodes,
        directory: &mut OpenDirectory,
        item: &LegalItem,
        block: Option<InBlock>,
    ) -> Result<(), AllocError>
        ensures { OnOk result ((image : Image) (limit : ℕ) (before : ℕ → List FormatDefect) (namings : List Naming) (ino : ℕ) (inode : FormatBlock) (items : List FormatItem) (x : FormatItem)
            → IsKnown image nodes.now → IsLegal x item.now → StandsIn (depth_of inode) x.place block
            → HasRead image limit before namings ino inode items self.old directory.old → HasRead image limit before namings ino inode (items ++ x ∷ []) self.new directory.new) }
    {
        let standing = directory.legal(nodes, item, block)?;
        let kind = nodes.kind(item.ino);
        self.rules
            .legal(directory.ino, item, standing.first, kind, block)?;
        self.tallies
            .count_name(standing.is_name, directory.ino, item.ino)?;
        Ok(())
    }

    // Takes an item of an area. The first slot of the area has the place `first`.
    fn item(
        &mut self,
        nodes: &Nodes,
        directory: &mut OpenDirectory,
        area: &[u8],
        item: Item,
        first: u64,
        block: Option<InBlock>,
    ) -> Result<(), AllocError>
        requires fits { first + item.slot < 2 ^ 64 }
        requires name { item.legal ≡ true → IsNamed area.now item }
        ensures { OnOk result ((image : Image) (limit : ℕ) (before : ℕ → List FormatDefect) (namings : List Naming) (ino : ℕ) (inode : FormatBlock) (items : List FormatItem)
            → IsKnown image nodes.now → StandsIn (depth_of inode) (first + item.slot) block
            → HasRead image limit before namings ino inode items self.old directory.old → HasRead image limit before namings ino inode (items ++ kept area.now first item ∷ []) self.new directory.new) }
    {
        let place = first + item.slot as u64;
        if !item.legal {
            self.rules.illegal(directory.ino, place, item.len)?;
            return Ok(());
        }
        let found = LegalItem {
            place,
            hash: item.hash,
            ino: item.ino,
            kind: item.kind,
            name: &area[item.at..item.at + usize::from(item.len)],
        };
        self.legal(nodes, directory, &found, block)?;
        Ok(())
    }

    /// Takes the items of an area of a directory: of its inode, or of a block. The first slot has the place `first`.
    pub fn scan(
        &mut self,
        nodes: &Nodes,
        directory: &mut OpenDirectory,
        area: &[u8],
        slots: usize,
        first: u64,
        block: Option<InBlock>,
    ) -> Result<(), AllocError>
        requires room { (slots + 7) / 8 + 19 * slots ≤ length area.now }
        requires fits { first + slots < 2 ^ 64 }
        ensures { OnOk result ((image : Image) (limit : ℕ) (before : ℕ → List FormatDefect) (namings : List Naming) (ino : ℕ) (inode : FormatBlock) (items : List FormatItem)
            → IsKnown image nodes.now → FitsDepth (depth_of inode) block → LiesIn first slots block
            → HasRead image limit before namings ino inode items self.old directory.old
            → HasRead image limit before namings ino inode (items ++ map (shifted first) (scan area.now slots)) self.new directory.new) }
    {
        for item in DirScan::new(area, slots) {
            self.item(nodes, directory, area, item, first, block)?;
        }
        Ok(())
    }

    /// Takes the items of a directory that stands in this inode.
    pub fn scan_inline(
        &mut self,
        nodes: &Nodes,
        directory: &mut OpenDirectory,
        inode: &Block,
    ) -> Result<(), AllocError>
        ensures { OnOk result ((image : Image) (limit : ℕ) (before : ℕ → List FormatDefect) (namings : List Naming) (ino : ℕ) → IsKnown image nodes.now → is_inline inode.now ≡ true
            → HasRead image limit before namings ino inode.now [] self.old directory.old
            → HasRead image limit before namings ino inode.now (scan (inline_area inode.now) (inline_slots (inline_length inode.now))) self.new directory.new) }
    {
        let (at, len) = inline_range(inode);
        let area = &inode.bytes()[at..at + len];
        self.scan(nodes, directory, area, 8 * len / 153, 0, None)?;
        Ok(())
    }

    /// Takes the items of block `k` of a directory; one that stands in its inode has no blocks.
    pub fn scan_block(
        &mut self,
        nodes: &Nodes,
        directory: &mut OpenDirectory,
        k: u64,
        block: &Block,
    ) -> Result<(), AllocError>
        requires { k < 2 ^ 32 }
        ensures { OnOk result ((image : Image) (limit : ℕ) (before : ℕ → List FormatDefect) (namings : List Naming) (ino : ℕ) (inode : FormatBlock) (items : List FormatItem) → IsKnown image nodes.now
            → HasRead image limit before namings ino inode items self.old directory.old → HasRead image limit before namings ino inode (items_with inode items k block.now) self.new directory.new) }
    {
        if directory.inode.is_inline {
            return Ok(());
        }
        let place = InBlock::new(k, directory.inode.dir_level);
        let first = SLOTS as u64 * k;
        self.scan(nodes, directory, block.bytes(), SLOTS, first, Some(place))?;
        Ok(())
    }
}
