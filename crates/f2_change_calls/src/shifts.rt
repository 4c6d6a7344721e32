// Blocks that move.
ghost use Rattle.std.specs.Prelude.{◌≡◌, ◌<◌, true, All, OnOk};
ghost use Rattle.std.specs.List.Sorted.{IsStrictlyIncreasing};
ghost use Rattle.f2_bytes.specs.Superblock.{is_main};

use crate::failures::{of_memory, of_shift, of_view};
use crate::mounts::{is_in_main, mounted};
use crate::readings::put_readings;
use crate::words::{parted, smalls};
use f2_bytes::Layout;
use f2_case_disk::{CallError, CaseDisk};
use f2_commit::{Weight, shift, weigh};
use std::alloc::Global;

// Fails unless these are addresses of the main area.
fn check_main(addresses: &[u32], l: &Layout) -> Result<(), CallError>
    ensures main { OnOk result (All (λ a. is_main l.now a ≡ true) addresses.now) }
{
    for address in addresses {
        if !is_in_main(l, *address) {
            return Err(CallError::Words);
        }
    }
    Ok(())
}

// Fails unless the addresses ascend.
fn check_order(addresses: &[u32]) -> Result<(), CallError>
    ensures { OnOk result (IsStrictlyIncreasing addresses.now) }
{
    for k in 1..addresses.len() {
        if addresses[k - 1] >= addresses[k] {
            return Err(CallError::Words);
        }
    }
    Ok(())
}

// Fails unless these are main segments.
fn check_targets(targets: &[u32], l: &Layout) -> Result<(), CallError>
    ensures { OnOk result (All (λ s. s < l.now.segments) targets.now) }
{
    for target in targets {
        if *target >= l.segments {
            return Err(CallError::Words);
        }
    }
    Ok(())
}

// How many blocks move with those at the addresses that the words say.
pub(crate) fn weight(
    alloc: Global,
    disk: &mut CaseDisk,
    words: &[String],
) -> Result<String, CallError> {
    let addresses = smalls(alloc, words)?;
    let mut m = mounted(alloc, disk)?;
    let l = m.layout();
    if addresses.len() > 4096 {
        return Err(CallError::Words);
    }
    check_main(&addresses, &l)?;
    check_order(&addresses)?;
    let Weight {
        data_blocks,
        node_blocks,
    } = weigh(alloc, &mut m, &addresses, disk).map_err(of_view)?;
    let mut text = String::new(alloc);
    writeln!(text, "data {data_blocks} nodes {node_blocks}").map_err(of_memory)?;
    Ok(text)
}

// Moves blocks to segments. Answers what the mount that this answers reads.
pub(crate) fn shifted(
    alloc: Global,
    disk: &mut CaseDisk,
    words: &[String],
) -> Result<String, CallError> {
    let (moves, readings) = parted(words, "then");
    let (from, to) = parted(moves, "to");
    let addresses = smalls(alloc, from)?;
    let targets = smalls(alloc, to)?;
    let m = mounted(alloc, disk)?;
    let l = m.layout();
    if addresses.len() > 4096 {
        return Err(CallError::Words);
    }
    check_main(&addresses, &l)?;
    check_order(&addresses)?;
    check_targets(&targets, &l)?;
    let mut renewed = match shift(alloc, m, &addresses, &targets, disk) {
        Ok(renewed) => renewed,
        Err(refusal) => return Err(of_shift(refusal)),
    };
    let mut text = String::new(alloc);
    put_readings(&mut renewed, disk, readings, &mut text)?;
    Ok(text)
}
