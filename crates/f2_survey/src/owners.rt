// Which node each block of the main area belongs to.
ghost use Rattle.std.specs.Prelude.{◌≡◌, ℕ, ◌+◌, ◌-◌, ◌/◌, ◌<◌, ◌≤◌, ◌==◌, ◌&&◌, not, true, false, if◌then◌else◌, List, [], ◌++◌, ◌∷◌, length, map, option_map, IfOk, OnOk};
ghost use Rattle.f2_bytes.specs.Bytes.{Image};
ghost use Rattle.f2_bytes.specs.Superblock.{is_main as is_main_address, layout as layout_of_image, segment_start, IsInOrder};
ghost use Rattle.f2_bytes.specs.Check.{is_address};
ghost use Rattle.f2_survey.specs.Known.{IsKnown};
ghost use Rattle.f2_survey.specs.Owners.{owner_of};
ghost use Rattle.f2_survey.specs.OwnerTables.{claim_in_place, owner_claimed, owner_kept, is_nobody, has_block, stands_at, HasOwners, IsOwners};
ghost use Rattle.f2_survey.specs.Slots.{Slot as FormatSlot};
ghost use Rattle.f2_sum.specs.Records.{nat_entry};

use crate::nodes::Nodes;
use f2_bytes::Layout;
use f2_sum::NatEntry;
use std::alloc::{AllocError, Global};
use std::marker::Model;

// How many blocks a segment has.
const IN_SEGMENT: usize = 512;

/// The node that a block belongs to.
#[derive(Clone, Copy, Debug, PartialEq, Eq)]
pub enum Owner {
    /// No node names it, and none stands there.
    Nobody,
    /// The node with this number stands there.
    Node(u32),
    /// The node with this number has its address in this place.
    Slot(u32, u16),
}

// An owner as it is kept, in eight bytes: of a slot the place goes first.
#[derive(Clone, Copy)]
enum Claim {
    Nobody,
    Node(u32),
    Slot(u16, u32),
}

// The owner that a claim says.
fn claimed(claim: Claim) -> Owner
    ensures { result ≡ owner_claimed claim }
{
    match claim {
        Claim::Nobody => Owner::Nobody,
        Claim::Node(nid) => Owner::Node(nid),
        Claim::Slot(place, nid) => Owner::Slot(nid, place),
    }
}

// The claim in a place of a segment's table.
fn claim_at(tables: &Vec<Vec<Claim>>, segment: usize, place: usize) -> Claim
    ensures { result ≡ claim_in_place (map (λ t. t.items) tables.now.items) segment place }
{
    if segment >= tables.len() {
        return Claim::Nobody;
    }
    let table = &tables[segment];
    if place >= table.len() {
        return Claim::Nobody;
    }
    table[place]
}

// Puts a claim into a place of a segment's table, which is made where it has no places yet.
fn put(
    tables: &mut Vec<Vec<Claim>>,
    segment: usize,
    place: usize,
    claim: Claim,
) -> Result<(), AllocError>
    requires segment { segment < length tables.old.items }
    requires place { place < 512 }
    ensures length { length tables.new.items ≡ length tables.old.items }
    ensures claim { OnOk result ((s p : ℕ) → claim_in_place (map (λ t. t.items) tables.new.items) s p
        ≡ (if (s == segment) && (p == place) then claim else claim_in_place (map (λ t. t.items) tables.old.items) s p)) }
{
    let table = &mut tables[segment];
    if table.len() < IN_SEGMENT {
        table.resize(IN_SEGMENT, Claim::Nobody)?;
    }
    table[place] = claim;
    Ok(())
}

// Tables without places for so many segments.
fn empty_tables(alloc: Global, segments: u32) -> Result<Vec<Vec<Claim>>, AllocError>
    ensures length { IfOk result (λ tables. length tables.items ≡ segments) }
    ensures empty { IfOk result (λ tables. (s p : ℕ) → owner_claimed (claim_in_place (map (λ t. t.items) tables.items) s p) ≡ Owner.Nobody) }
{
    let mut tables = Vec::new(alloc);
    for _s in 0..segments {
        tables.push(Vec::new(alloc))?;
    }
    Ok(tables)
}

/// The owners of the blocks of the main area: first those that the node address table says, then those that have the
/// blocks in their slots. Where a block was claimed twice, or lies outside, the owners are spoiled, and need not be right.
#[derive(Drop)]
pub struct Owners {
    main: u32,
    tables: Vec<Vec<Claim>>,
    spoiled: bool,
}

impl Model for Owners {
    ghost use Rattle.std.specs.Prelude.{map};
    ghost use Rattle.f2_survey.specs.OwnerTables.{OwnerTable};

    ghost Value = { OwnerTable };

    ghost view = { λ o. record { main = o.main; tables = map (λ t. t.items) o.tables.items; spoiled = o.spoiled } };
}

impl Owners {
    /// The owners that the nodes alone say: each stands at its address.
    pub fn of_nodes(alloc: Global, layout: &Layout, nodes: &Nodes) -> Result<Owners, AllocError>
        ensures { IfOk result (λ o. (image : Image) → IsKnown image nodes.now → IsInOrder layout.now → layout_of_image image ≡ layout.now → HasOwners image [] o) }
    {
        let mut owners = Owners {
            main: layout.main,
            tables: empty_tables(alloc, layout.segments)?,
            spoiled: false,
        };
        for nid in 0..nodes.limit() {
            owners.settle(nodes.entry(nid), nid)?;
        }
        Ok(owners)
    }

    /// Whether this is the address of a main block.
    pub fn is_main(&self, address: u32) -> bool
        ensures { result ≡ has_block self.now address }
    {
        self.main <= address && (address - self.main) as usize / IN_SEGMENT < self.tables.len()
    }

    // Whether this is the address of a main block that nobody has.
    fn is_free(&self, address: u32) -> bool
        ensures { result ≡ (has_block self.now address && is_nobody (owner_kept self.now address)) }
    {
        if !self.is_main(address) {
            return false;
        }
        match self.at(address) {
            Owner::Nobody => true,
            Owner::Node(_) => false,
            Owner::Slot(_, _) => false,
        }
    }

    // Claims a main block.
    fn put(&mut self, address: u32, claim: Claim) -> Result<(), AllocError>
        requires { has_block self.old address ≡ true }
        ensures main { self.new.main ≡ self.old.main }
        ensures segments { length self.new.tables ≡ length self.old.tables }
        ensures spoiled { self.new.spoiled ≡ self.old.spoiled }
        ensures kept { OnOk result ((a : ℕ) → self.old.main ≤ a → owner_kept self.new a ≡ (if a == address then owner_claimed claim else owner_kept self.old a)) }
    {
        let place = (address - self.main) as usize;
        put(
            &mut self.tables,
            place / IN_SEGMENT,
            place % IN_SEGMENT,
            claim,
        )
    }

    // Lets the node with this number have the block at the address in its entry, if nobody has it.
    fn settle(&mut self, entry: Option<NatEntry>, nid: u32) -> Result<(), AllocError>
        ensures main { self.new.main ≡ self.old.main }
        ensures segments { length self.new.tables ≡ length self.old.tables }
        ensures spoiled { self.new.spoiled ≡ self.old.spoiled }
        ensures kept { OnOk result ((a : ℕ) → has_block self.old a ≡ true
            → owner_kept self.new a ≡ (if stands_at (option_map nat_entry entry) a && is_nobody (owner_kept self.old a) then Owner.Node nid else owner_kept self.old a)) }
    {
        let address = match entry {
            Some(entry) => entry.addr,
            None => return Ok(()),
        };
        if !self.is_free(address) {
            return Ok(());
        }
        self.put(address, Claim::Node(nid))
    }

    /// Lets the node with this number, which has the address in this place, have the block there, if nobody has it: true
    /// exactly then. Else the owners are spoiled.
    pub fn claim(&mut self, address: u32, nid: u32, place: u16) -> Result<bool, AllocError>
        ensures claims { OnOk result ((image : Image) (slots : List FormatSlot) (s : FormatSlot) → s.address ≡ address → s.nid ≡ nid → s.place ≡ place → is_address address ≡ true
            → HasOwners image slots self.old → HasOwners image (slots ++ s ∷ []) self.new) }
        ensures first { IfOk result (λ first. self.new.spoiled ≡ not first) }
        ensures stays { self.new.spoiled ≡ false → self.old.spoiled ≡ false }
    {
        if self.spoiled {
            return Ok(false);
        }
        if !self.is_free(address) {
            self.spoiled = true;
            return Ok(false);
        }
        self.put(address, Claim::Slot(place, nid))?;
        Ok(true)
    }

    /// Where the main area begins.
    pub fn main(&self) -> u32
        ensures { result ≡ self.now.main }
    {
        self.main
    }

    /// Whether a block was claimed twice, or lay outside.
    pub fn is_spoiled(&self) -> bool
        ensures { result ≡ self.now.spoiled }
    {
        self.spoiled
    }

    /// The owner of the block at an address.
    pub fn at(&self, address: u32) -> Owner
        ensures kept { self.now.main ≤ address → result ≡ owner_kept self.now address }
        ensures owner { (image : Image) → IsOwners image self.now → is_main_address (layout_of_image image) address ≡ true → result ≡ owner_of image address }
    {
        if address < self.main {
            return Owner::Nobody;
        }
        let place = (address - self.main) as usize;
        claimed(claim_at(&self.tables, place / IN_SEGMENT, place % IN_SEGMENT))
    }

    /// True only if no block of this main segment has an owner.
    pub fn is_idle(&self, segno: u32) -> bool
        ensures { (image : Image) → IsOwners image self.now → segno < (layout_of_image image).segments → result ≡ true → (k : ℕ) → k < 512
            → owner_of image (segment_start (layout_of_image image) segno + k) ≡ Owner.Nobody }
    {
        match self.tables.get(segno as usize) {
            Some(table) => table.is_empty(),
            None => false,
        }
    }
}
