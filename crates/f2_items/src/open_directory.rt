// A directory while its items are read.
ghost use Rattle.std.specs.Prelude.{◌≡◌, ℕ, ◌+◌, ◌&&◌, List, [], ◌∷◌, ◌++◌, is_some, Bool, Option, Some, OnOk, IfOk};
ghost use Rattle.std.specs.Option.{option_or};
ghost use Rattle.f2_bytes.specs.Bytes.{Image};
ghost use Rattle.f2_bytes.specs.Bytes.{Block as FormatBlock};
ghost use Rattle.f2_bytes.specs.Directory.{Item};
ghost use Rattle.f2_bytes.specs.Names.{is_dots};
ghost use Rattle.f2_bytes.specs.Object.{is_name};
ghost use Rattle.f2_bytes.specs.Check.{directory_of, digit};
ghost use Rattle.f2_items.specs.FirstPlaces.{first_place};
ghost use Rattle.f2_items.specs.ItemComparisons.{IsLegal, StandsIn};
ghost use Rattle.f2_survey.specs.Known.{IsKnown};
ghost use Rattle.f2_items.specs.OpenDirectories.{HoldsDots, Says, depth_of, IsOpen};
ghost use Rattle.f2_view.specs.Directories.{legal};

use crate::directory_block::InBlock;
use crate::item_reach::Reach;
use crate::name_places::NamePlaces;
use crate::rule_10_items::LegalItem;
use f2_disk::Block;
use f2_node::{inode_field, is_inline};
use f2_survey::Nodes;
use std::alloc::{AllocError, Global};

/// What the first items named `.` and `..` name.
#[derive(Clone, Copy)]
pub struct Dots {
    pub dot: Option<u32>,
    pub dot_dot: Option<u32>,
}

impl Dots {
    /// No items so far.
    fn new() -> Dots
        ensures { HoldsDots [] result }
    {
        Dots {
            dot: None,
            dot_dot: None,
        }
    }

    /// Takes an item with this name, and says whether the name is `.` or `..`.
    fn take(&mut self, name: &[u8], ino: u32) -> bool
        ensures holds { (items : List Item) (item : Item) → item.name ≡ name.now → item.ino ≡ ino → HoldsDots items self.old → HoldsDots (items ++ item ∷ []) self.new }
        ensures is { result ≡ is_dots name.now }
    {
        if name == b".".as_slice() {
            self.dot = first_of(self.dot, ino);
            return true;
        }
        if name == b"..".as_slice() {
            self.dot_dot = first_of(self.dot_dot, ino);
            return true;
        }
        false
    }
}

// The first of these, or this one.
fn first_of(first: Option<u32>, ino: u32) -> Option<u32>
    ensures { result ≡ option_or first (Some ino) }
{
    match first {
        Some(first) => Some(first),
        None => Some(ino),
    }
}

/// What the inode of a directory says.
#[derive(Clone, Copy)]
pub struct InodeFields {
    pub links: u32,
    /// How many levels the directory has.
    pub current_depth: u32,
    /// In bytes.
    pub size: u64,
    /// The levels begin with 2^`dir_level` buckets.
    pub dir_level: u8,
    /// Whether the items stand in the inode.
    pub is_inline: bool,
    /// Whether the directory may do without `.` and `..`.
    pub may_lack_dots: bool,
}

impl InodeFields {
    /// The fields of an inode.
    fn of(inode: &Block) -> InodeFields
        ensures { Says inode.now result }
    {
        InodeFields {
            links: inode_field(inode, 5) as u32,
            current_depth: inode_field(inode, 15) as u32,
            size: inode_field(inode, 6),
            dir_level: inode_field(inode, 20) as u8,
            is_inline: is_inline(inode),
            may_lack_dots: inode_field(inode, 2) / 16 % 2 == 1,
        }
    }
}

/// What is kept of a directory while its items are read.
#[derive(Drop)]
pub struct OpenDirectory {
    pub ino: u32,
    pub inode: InodeFields,
    pub places: NamePlaces,
    pub dots: Dots,
    pub reach: Reach,
    /// How many names name directories.
    pub directories: u64,
}

/// What is found of an item that is legal.
#[derive(Clone, Copy)]
pub struct Standing {
    /// The place of the first item of its name.
    pub first: u64,
    /// Whether the name is another than `.` and `..`.
    pub is_name: bool,
}

// One more, if the item is a name of a directory. 2^64 of them don't fit.
fn one_more(count: u64, nodes: &Nodes, is_name: bool, ino: u32) -> Result<u64, AllocError>
    ensures { IfOk result (λ n. (image : Image) → IsKnown image nodes.now → n ≡ count + digit (is_name && is_some (directory_of image ino))) }
{
    if !is_name {
        return Ok(count);
    }
    if !nodes.is_directory(ino) {
        return Ok(count);
    }
    match count.checked_add(1) {
        Some(count) => Ok(count),
        None => Err(AllocError),
    }
}

impl OpenDirectory {
    /// A directory with no items so far.
    pub fn new(alloc: Global, ino: u32, inode: &Block) -> OpenDirectory
        ensures { (is_directory : ℕ → Bool) → IsOpen is_directory ino inode.now [] result }
    {
        OpenDirectory {
            ino,
            inode: InodeFields::of(inode),
            places: NamePlaces::new(alloc),
            dots: Dots::new(),
            reach: Reach::new(),
            directories: 0,
        }
    }

    /// Takes an item that is legal, and the block that it stands in, if it stands in one.
    pub fn legal(
        &mut self,
        nodes: &Nodes,
        item: &LegalItem,
        block: Option<InBlock>,
    ) -> Result<Standing, AllocError>
        ensures directory { OnOk result ((image : Image) (ino : ℕ) (inode : FormatBlock) (items : List Item) (x : Item) → IsKnown image nodes.now
            → IsLegal x item.now → StandsIn (depth_of inode) x.place block
            → IsOpen (λ n. is_some (directory_of image n)) ino inode items self.old → IsOpen (λ n. is_some (directory_of image n)) ino inode (items ++ x ∷ []) self.new) }
        ensures first { IfOk result (λ s. (is_directory : ℕ → Bool) (ino : ℕ) (inode : FormatBlock) (items : List Item) (x : Item) → IsLegal x item.now
            → IsOpen is_directory ino inode items self.old → first_place x.name (legal (items ++ x ∷ [])) ≡ Some s.first) }
        ensures name { IfOk result (λ s. (x : Item) → IsLegal x item.now → s.is_name ≡ is_name x) }
        ensures number { self.new.ino ≡ self.old.ino }
    {
        let first = self.places.first(item.name, item.place)?;
        self.reach.take(block);
        let is_name = !self.dots.take(item.name, item.ino);
        self.directories = one_more(self.directories, nodes, is_name, item.ino)?;
        Ok(Standing { first, is_name })
    }
}
