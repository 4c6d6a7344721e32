// A change that is prepared and committed.
ghost use Rattle.std.specs.Prelude.{◌≡◌, ◌<◌, true, All, OnOk};
ghost use Rattle.f2_bytes.specs.Journal.{FitsSitEntry};
ghost use Rattle.f2_bytes.specs.NodeAddressTable.{nid_limit};
ghost use Rattle.f2_bytes.specs.Superblock.{is_main};
ghost use Rattle.f2_sum.specs.Records.{sit_entry};
ghost use Rattle.f2_view.specs.Mounted.{layout_in};

use crate::failures::of_prepare;
use crate::mounts::{is_in_main, mounted};
use crate::parts::change_in;
use crate::readings::put_readings;
use crate::words::number;
use f2_bytes::Layout;
use f2_case_disk::{CallError, CaseDisk};
use f2_commit::{Change, commit, prepare};
use f2_disk::Block;
use f2_pack::Log;
use f2_sum::SitEntry;
use f2_tables::NatEntry;
use f2_view::Mount;
use std::alloc::Global;

// Fails unless all nodes have numbers below the limit.
fn check_nodes(nat: &[(u32, NatEntry)], limit: u32) -> Result<(), CallError>
    ensures { OnOk result (All (λ w. w.0 < limit) nat.now) }
{
    for w in nat {
        if w.0 >= limit {
            return Err(CallError::Words);
        }
    }
    Ok(())
}

// Fails unless all segments are those of the layout, and their entries fit the table.
fn check_segments(sit: &[(u32, SitEntry)], l: &Layout) -> Result<(), CallError>
    ensures { OnOk result (All (λ w. (w.0 < l.now.segments) × FitsSitEntry (sit_entry w.1)) sit.now) }
{
    for w in sit {
        if w.0 >= l.segments || w.1.kind >= 64 || w.1.count >= 1024 {
            return Err(CallError::Words);
        }
    }
    Ok(())
}

// Fails unless all blocks lie in the main area.
fn check_blocks(blocks: &[(u32, Block)], l: &Layout) -> Result<(), CallError>
    ensures { OnOk result (All (λ w. is_main l.now w.0 ≡ true) blocks.now) }
{
    for w in blocks {
        if !is_in_main(l, w.0) {
            return Err(CallError::Words);
        }
    }
    Ok(())
}

// Fails unless all summary blocks are those of segments of the layout.
fn check_summaries(sums: &[(u32, Block)], l: &Layout) -> Result<(), CallError>
    ensures { OnOk result (All (λ w. w.0 < l.now.segments) sums.now) }
{
    for w in sums {
        if w.0 >= l.segments {
            return Err(CallError::Words);
        }
    }
    Ok(())
}

// Fails unless all logs lie in the main area.
fn check_logs(logs: &[Log], l: &Layout) -> Result<(), CallError>
    ensures { OnOk result (All (λ at. (at.segno < l.now.segments) × (at.offset < 512)) logs.now) }
{
    for at in logs {
        if at.segno >= l.segments || at.offset >= 512 {
            return Err(CallError::Words);
        }
    }
    Ok(())
}

// Fails unless all parts of a change lie in their areas.
fn check_change(c: &Change, m: &Mount) -> Result<(), CallError>
    ensures nids { OnOk result (All (λ w. w.0 < nid_limit (layout_in m.now)) c.now.nat.items) }
    ensures segments { OnOk result (All (λ w. (w.0 < (layout_in m.now).segments) × FitsSitEntry (sit_entry w.1)) c.now.sit.items) }
    ensures blocks { OnOk result (All (λ w. is_main (layout_in m.now) w.0 ≡ true) c.now.blocks.items) }
    ensures sums { OnOk result (All (λ w. w.0 < (layout_in m.now).segments) c.now.sums.items) }
    ensures logs { OnOk result (All (λ at. (at.segno < (layout_in m.now).segments) × (at.offset < 512)) c.now.logs) }
{
    let l = m.layout();
    check_nodes(&c.nat, m.nid_limit())?;
    check_segments(&c.sit, &l)?;
    check_blocks(&c.blocks, &l)?;
    check_summaries(&c.sums, &l)?;
    check_logs(&c.logs, &l)
}

// Prepares and commits the change of a block. Answers what the mount that this answers reads.
pub(crate) fn committed(
    alloc: Global,
    disk: &mut CaseDisk,
    words: &[String],
) -> Result<String, CallError> {
    let (at, readings) = match words {
        [at, readings @ ..] => (number(at.as_str())?, readings),
        _ => return Err(CallError::Words),
    };
    let mut m = mounted(alloc, disk)?;
    let c = change_in(alloc, &m, disk, at)?;
    check_change(&c, &m)?;
    let ready = match prepare(alloc, &mut m, c, disk) {
        Ok(ready) => ready,
        Err(refusal) => return Err(of_prepare(refusal)),
    };
    let mut renewed = commit(disk, m, ready)?;
    let mut text = String::new(alloc);
    put_readings(&mut renewed, disk, readings, &mut text)?;
    Ok(text)
}
