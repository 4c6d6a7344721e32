// Directories that are their own ancestors: part 2 of rule 11.
ghost use Rattle.std.specs.Prelude.{◌≡◌, ℕ, ◌<◌, length, get_or, nat_lt, if◌then◌else◌, false, IfOk, OnOk};
ghost use Rattle.f2_bytes.specs.Bytes.{Image};
ghost use Rattle.f2_bytes.specs.Check.{nids, least_parent, part_defects};
ghost use Rattle.f2_items.specs.Ancestors.{parent_in};
ghost use Rattle.f2_defects.specs.Collected.{Collects};
ghost use Rattle.f2_items.specs.Directories.{IsGathered, visited_below};
ghost use Rattle.f2_items.specs.EachFile.{HasNames, TellsOwn, IsVisited, Takes, above};
ghost use Rattle.f2_survey.specs.Known.{IsKnown};
ghost use Rattle.f2_survey.specs.Parts.{part_in};

use crate::ancestors::own_ancestors;
use crate::directories::Directories;
use crate::name_counts::Tallies;
use crate::visited_files::{FileKind, Visited};
use f2_defects::Collector;
use f2_survey::Nodes;
use std::alloc::{AllocError, Global};

// The number if it is below the limit, else 0.
fn below(number: u32, limit: u32) -> u32
    requires { 0 < limit }
    ensures { result ≡ (if nat_lt number limit then number else 0) }
{
    if number < limit { number } else { 0 }
}

// The directory above a number, 0 where there is none below the limit.
fn parent_below(tallies: &Tallies, number: u32, limit: u32) -> u32
    requires { number < limit }
    ensures low { result < limit }
    ensures parent { (image : Image) → HasNames image tallies.now → limit ≡ nids image → above result ≡ least_parent image number }
{
    match tallies.parent(number) {
        Some(up) => below(up, limit),
        None => 0,
    }
}

// The directory above each number below the limit, 0 where there is none.
fn parents_below(alloc: Global, tallies: &Tallies, limit: u32) -> Result<Vec<u32>, AllocError>
    ensures length { IfOk result (λ parents. length parents.items ≡ limit) }
    ensures low { IfOk result (λ parents. (k : ℕ) → k < limit → get_or parents.items k 0 < limit) }
    ensures parents { IfOk result (λ parents. (image : Image) → HasNames image tallies.now → limit ≡ nids image
        → (k : ℕ) → k < limit → parent_in parents.items k ≡ least_parent image k) }
{
    let mut parents = Vec::new(alloc);
    for number in 0..limit {
        parents.push(parent_below(tallies, number, limit))?;
    }
    Ok(parents)
}

// Whether a number is its own ancestor; not if it is past all.
fn is_own(own: &[bool], ino: u32) -> bool
    ensures { result ≡ get_or own.now ino false }
{
    own.get(ino as usize).copied().unwrap_or(false)
}

// Takes a file, if it is a directory.
fn take_own(own: &[bool], file: &Visited, into: &mut Collector) -> Result<(), AllocError>
    ensures { OnOk result ((image : Image) → TellsOwn image own.now → IsVisited image file.now → Takes into.old into.new (part_in image 11 2) file.now) }
{
    match file.kind {
        FileKind::Plain => Ok(()),
        FileKind::Directory(_) => {
            let found = is_own(own, file.ino);
            into.same(u64::from(file.ino), 0, u64::from(found), 0)
        }
    }
}

// Takes each file.
fn take_all(alloc: Global, own: &[bool], files: &[Visited]) -> Result<Collector, AllocError>
    ensures { IfOk result (λ c. (image : Image) → TellsOwn image own.now → files.now ≡ visited_below image (nids image) → Collects c (part_defects (part_in image 11 2))) }
{
    let mut found = Collector::new(alloc, 2);
    for file in files {
        take_own(own, file, &mut found)?;
    }
    Ok(found)
}

/// The directories that are their own ancestors: part 2 of rule 11.
pub fn loop_defects(alloc: Global, nodes: &Nodes, d: &Directories) -> Result<Collector, AllocError>
    ensures { IfOk result (λ c. (image : Image) → IsKnown image nodes.now → IsGathered image (nids image) d.now → Collects c (part_defects (part_in image 11 2))) }
{
    let parents = parents_below(alloc, &d.names.tallies, nodes.limit())?;
    let own = own_ancestors(alloc, &parents)?;
    take_all(alloc, &own, &d.files)
}
