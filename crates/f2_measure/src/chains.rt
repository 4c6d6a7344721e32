// Following chains of nodes.
ghost use Rattle.std.specs.Prelude.{◌≡◌, ◌<◌, IfOk};
ghost use Rattle.f2_disk.specs.Fakes.{memory_of};

use crate::Failed;
use f2_bytes::Layout;
use f2_disk::{Block, Disk, MemoryDisk};
use f2_node::{Footer, set_footer};
use f2_roll::chain;
use std::alloc::Global;

// An image whose main area has 512 segments.
const LAYOUT: Layout = Layout {
    blocks: 266_240,
    cp: 512,
    sit: 1536,
    nat: 2560,
    ssa: 3584,
    main: 4096,
    sit_half: 512,
    nat_half: 512,
    segments: 512,
};

// The address of a node of the chain. As a log is filled, the nodes follow each other in a segment, and go on in another one;
// 512 segments take turns, and after them the addresses come again.
fn address(number: u32) -> u32
    ensures { result < 266240 }
{
    let segment = number / 512 % 512 * 37 % 512;
    4096 + 512 * segment + number % 512
}

// The head of a checkpoint of version 1, whose log of warm nodes has its next block at the start of the main area.
fn head() -> Block {
    let mut head = Block::zeros();
    head.put(0, &1u64.to_le_bytes());
    head
}

// A disk with a chain of so many nodes.
fn disk(alloc: Global, nodes: u32) -> Result<MemoryDisk, Failed>
    ensures { IfOk result (λ d. (memory_of d).blocks ≡ 266240) }
{
    let mut disk = MemoryDisk::new(alloc, 266_240, Vec::new(alloc));
    for number in 0..nodes {
        let mut node = Block::zeros();
        let footer = Footer {
            nid: 3,
            ino: 3,
            flag: 0,
            cp_ver: 1,
            next: address(number.saturating_add(1)),
        };
        set_footer(&mut node, &footer);
        if disk.write(u64::from(address(number)), &node).is_err() {
            return Err(Failed::Refused);
        }
    }
    Ok(disk)
}

/// Follows a chain of so many nodes so often, and puts how many there were.
pub fn follow_often(rt: &HostRuntime, alloc: Global, nodes: u32, times: u32) -> Result<(), Failed> {
    let mut disk = disk(alloc, nodes)?;
    let head = head();
    let mut count = 0;
    for _ in 0..times {
        match chain(alloc, &mut disk, &LAYOUT, &head) {
            Ok(found) => count = found.nodes().len(),
            Err(_) => return Err(Failed::Refused),
        }
    }
    match println!(rt; "nodes {count}") {
        Ok(()) => Ok(()),
        Err(_) => Err(Failed::Refused),
    }
}
