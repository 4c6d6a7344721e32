// The job that empties a range of block addresses.
ghost use Rattle.std.specs.Prelude.{◌≡◌, ◌≢◌, ◌≤◌, ◌<◌, ◌⊎◌, ◌+◌, ◌*◌, ◌^◌, ◌++◌, ◌&&◌, ◌||◌, ◌==◌, nat_le, nat_lt, if◌then◌else◌, unwrap_or, List, [], ℕ, Some, None, Err, IfOk, IfErr, IsErrOf, IsFalse, true, false};
ghost use Rattle.f2_bytes.specs.Bytes.{Image};
ghost use Rattle.f2_bytes.specs.Check.{is_checked, is_marked, is_readable};
ghost use Rattle.f2_bytes.specs.Checkpoint.{checkpoint_ver};
ghost use Rattle.f2_bytes.specs.Defragment.{main_end as area_end, range_start, range_end, range_target, defrag_need, defrag_have};
ghost use Rattle.f2_bytes.specs.Superblock.{IsInOrder, layout};
ghost use Rattle.f2_defects.specs.Verdicts.{IsVerdict};
ghost use Rattle.f2_disk.specs.Disk.{Reads, Goes, Rose};
ghost use Rattle.f2_reloc.specs.Emptying.{end_of, IsInside, IsEmptied};
ghost use Rattle.f2_commit.specs.declared.relocating.RelocRefusal.TheVariants.{NoSpace};
ghost use Rattle.f2_view.specs.Mounted.{layout_in, IsMountOf};
ghost use Rattle.f2_view.specs.Mounting.{mounted};
ghost use Rattle.f2_top.specs.Answers.{AnswersOrEnds, IsIdle, IsLastAlone, IsWhole};
ghost use Rattle.f2_top.specs.Disks.{IsSettled, OnImage, TellsOne};
ghost use Rattle.f2_top.specs.Ranges.{aim_of, aim_at, outside_aim, space_answer, moves_line, LeavesEmptied, HasNone, HasNoneIn, KeepsTree, KeepsTreeAlways};
ghost use Rattle.f2_top.specs.Run.{move_answer, move_lines, emptying_answer, emptying_lines, LeavesMoved};
ghost use Rattle.f2_top.specs.Text.{Appends, IsFront, moved_line};

use crate::checks::put_defects;
use crate::mounts::refused;
use crate::report::put_moved;
use crate::{Answer, Refusal};
use f2_bytes::Layout;
use f2_check::{CheckRefusal, Verdict, check};
use f2_commit::{Moved, RelocRefusal};
use f2_disk::{Disk, Sink};
use f2_reloc::{Range, defrag};
use f2_view::{Mount, mount};
use std::alloc::Global;

/// The range that is to be emptied, and where to, as words ask for it.
#[derive(Clone, Copy)]
pub struct DefragRequest {
    pub start: Option<u64>,
    pub blocks: Option<u64>,
    pub target: Option<u64>,
    pub down: bool,
}

// The first address behind the main area.
fn main_end(l: &Layout) -> u64
    ensures { result ≡ area_end l.now }
{
    u64::from(l.main) + 512 * u64::from(l.segments)
}

// The first address of the range.
fn start_of(l: &Layout, start: Option<u64>) -> u64
    ensures { result ≡ range_start l.now start }
{
    let main = u64::from(l.main);
    main.max(start.unwrap_or(main))
}

// How many addresses are asked for.
fn length_of(blocks: Option<u64>) -> u64
    ensures { result ≡ (let n = unwrap_or blocks 0 in if n == 0 then 512 else n) }
{
    let n = blocks.unwrap_or(0);
    if n == 0 { 512 } else { n }
}

// The range from an address of the main area on, cut at the end of that.
fn range_from(l: &Layout, start: u64, blocks: Option<u64>) -> Range
    requires main { l.now.main ≤ start }
    requires inside { start < area_end l.now }
    ensures start { result.start ≡ start }
    ensures end { result.start + result.blocks ≡ range_end l.now start blocks }
    ensures range { IsInside l.now result }
{
    Range {
        start,
        blocks: length_of(blocks).min(main_end(l) - start),
    }
}

// The target.
fn target_of(range: Range, target: Option<u64>, down: bool) -> u64
    requires some { 1 ≤ range.start }
    requires fits { range.start + range.blocks < 2 ^ 64 }
    ensures { result ≡ range_target range.start (range.start + range.blocks) target down }
{
    match target {
        Some(target) => target,
        None if down => range.start - 1,
        None => range.start + range.blocks,
    }
}

// A target that is none: it lies outside of the main area or in the range.
fn is_outside(l: &Layout, range: Range, target: u64) -> bool
    requires fits { range.start + range.blocks < 2 ^ 64 }
    ensures { result ≡ (nat_lt target l.now.main || nat_lt (area_end l.now) target
        || (nat_le range.start target && nat_lt target (range.start + range.blocks))) }
{
    let inside = range.start <= target && target < range.start + range.blocks;
    target < u64::from(l.main) || main_end(l) < target || inside
}

// The range and the target; or the number that lies outside.
fn aim(l: &Layout, request: &DefragRequest) -> Result<(Range, u64), u64>
    requires order { IsInOrder l.now }
    ensures none { IfOk result (λ a. outside_aim l.now request.now ≡ None) }
    ensures aim { IfOk result (λ a. aim_at a.0 a.1 request.now.down ≡ aim_of l.now request.now) }
    ensures range { IfOk result (λ a. IsInside l.now a.0) }
    ensures target { IfOk result (λ a. (l.now.main ≤ a.1) × (a.1 ≤ area_end l.now)) }
    ensures outside { IfErr result (λ n. outside_aim l.now request.now ≡ Some n) }
{
    let start = start_of(l, request.start);
    if main_end(l) <= start {
        return Err(start);
    }
    let range = range_from(l, start, request.blocks);
    let target = target_of(range, request.target, request.down);
    if is_outside(l, range, target) {
        return Err(target);
    }
    Ok((range, target))
}

// Puts the line of what moved.
fn put_moves<O: Sink>(out: &mut O, moved: Moved) -> Answer
    ensures kind { (result ≡ Answer.Done) ⊎ (result ≡ Answer.SinkFault) }
    ensures sink { result ≡ Answer.SinkFault → Rose (O.faults out.old) (O.faults out.new) }
    ensures lines { (early : List ℕ)
        → Appends (O.told out.old) (O.told out.new) (IsFront early (moved_line moved.blocks moved.batches) result) }
    ensures sink_goes { O.faults out.old ≤ O.faults out.new }
{
    match put_moved(out, moved.blocks, moved.batches) {
        Ok(()) => Answer::Done,
        Err(_) => Answer::SinkFault,
    }
}

// Empties a range of a checked image.
fn move_range<D: Disk>(
    alloc: Global,
    m: Mount,
    range: Range,
    target: u64,
    down: bool,
    disk: &mut D,
) -> Result<Moved, RelocRefusal>
    requires lies { (layout_in m).blocks ≤ (D.state disk.old).size }
    requires version { checkpoint_ver m.chosen.head < 2 ^ 62 }
    requires range { IsInside (layout_in m) range }
    requires target { ((layout_in m).main ≤ target) × (target ≤ area_end (layout_in m)) }
    requires checked { OnImage (D.state disk.old) (λ image. is_checked image ≡ true) }
    requires of_image { OnImage (D.state disk.old) (λ image. IsMountOf image m) }
    ensures emptied { IfOk result (λ moved. OnImage (D.state disk.old) (λ image.
        TellsOne (D.state disk.new) (λ new. IsEmptied image range.start (end_of range) target down new moved))) }
    ensures durable { (D.state disk.old).pending ≡ false → IfOk result (λ _. (D.state disk.new).pending ≡ false) }
    ensures idle { OnImage (D.state disk.old) (λ image. HasNoneIn image range.start (end_of range)
        → Reads (D.state disk.old) (D.state disk.new)) }
    ensures no_space { (need have : ℕ) → result ≡ Err (NoSpace need have) → OnImage (D.state disk.old) (λ image.
        (need ≡ defrag_need image range.start (end_of range))
        × (have ≡ defrag_have image range.start (end_of range) target down) × (have < need)) }
    ensures unwritten { (need have : ℕ) → result ≡ Err (NoSpace need have)
        → Reads (D.state disk.old) (D.state disk.new) }
    ensures either { KeepsTree (D.state disk.old) (D.state disk.new) }
    ensures any_moment { KeepsTreeAlways (D.state disk.old) (D.state disk.new) }
    ensures goes { Goes (D.state disk.old) (D.state disk.new) }
    ensures fault { IsErrOf result RelocRefusal.DiskFault → Rose (D.state disk.old).faults (D.state disk.new).faults }
{
    let (_, moved) = defrag(alloc, m, range, target, down, disk)?;
    Ok(moved)
}

// Empties a range of a checked image, and puts what moved.
fn empty_checked<D: Disk, O: Sink>(
    alloc: Global,
    m: Mount,
    range: Range,
    target: u64,
    down: bool,
    disk: &mut D,
    out: &mut O,
) -> Answer
    requires lies { (layout_in m).blocks ≤ (D.state disk.old).size }
    requires version { checkpoint_ver m.chosen.head < 2 ^ 62 }
    requires range { IsInside (layout_in m) range }
    requires target { ((layout_in m).main ≤ target) × (target ≤ area_end (layout_in m)) }
    requires checked { OnImage (D.state disk.old) (λ image. is_checked image ≡ true) }
    requires of_image { OnImage (D.state disk.old) (λ image. IsMountOf image m) }
    ensures exact { OnImage (D.state disk.old) (λ image.
        AnswersOrEnds (space_answer image (aim_at range target down)) result) }
    ensures sink_fault { OnImage (D.state disk.old) (λ image. result ≡ Answer.SinkFault
        → space_answer image (aim_at range target down) ≡ Answer.Done) }
    ensures fault { result ≡ Answer.DiskFault → Rose (D.state disk.old).faults (D.state disk.new).faults }
    ensures sink { result ≡ Answer.SinkFault → Rose (O.faults out.old) (O.faults out.new) }
    ensures others { (result ≢ Answer.Usage) × (result ≢ Answer.Corrected) }
    ensures lines { OnImage (D.state disk.old) (λ image.
        Appends (O.told out.old) (O.told out.new) (IsFront [] (moves_line image (aim_at range target down)) result)) }
    ensures silent { IsLastAlone false result → O.told out.new ≡ O.told out.old }
    ensures image { OnImage (D.state disk.old) (λ image. result ≢ Answer.DiskFault → result ≢ Answer.NoMemory
        → let aim = aim_at range target down in
        TellsOne (D.state disk.new) (LeavesEmptied image aim (space_answer image aim))) }
    ensures idle { IsIdle false true result → Reads (D.state disk.old) (D.state disk.new) }
    ensures none { OnImage (D.state disk.old) (λ image. HasNone image (aim_at range target down)
        → Reads (D.state disk.old) (D.state disk.new)) }
    ensures durable { IsSettled result (D.state disk.old) (D.state disk.new) }
    ensures either { KeepsTree (D.state disk.old) (D.state disk.new) }
    ensures any_moment { KeepsTreeAlways (D.state disk.old) (D.state disk.new) }
    ensures goes { Goes (D.state disk.old) (D.state disk.new) }
    ensures sink_goes { O.faults out.old ≤ O.faults out.new }
{
    match move_range(alloc, m, range, target, down, disk) {
        Ok(moved) => put_moves(out, moved),
        Err(RelocRefusal::NoSpace { need, have }) => Answer::NoSpace { need, have },
        Err(RelocRefusal::DiskFault) => Answer::DiskFault,
        Err(RelocRefusal::NoMemory) => Answer::NoMemory,
    }
}

// Empties a range of an image of which the check says this, if that is clean; or puts the lines of its defects.
fn empty_if_clean<D: Disk, O: Sink>(
    alloc: Global,
    verdict: Verdict,
    m: Mount,
    range: Range,
    target: u64,
    down: bool,
    disk: &mut D,
    out: &mut O,
) -> Answer
    requires lies { (layout_in m).blocks ≤ (D.state disk.old).size }
    requires version { checkpoint_ver m.chosen.head < 2 ^ 62 }
    requires range { IsInside (layout_in m) range }
    requires target { ((layout_in m).main ≤ target) × (target ≤ area_end (layout_in m)) }
    requires readable { OnImage (D.state disk.old) (λ image. is_readable image ≡ true) }
    requires verdict { OnImage (D.state disk.old) (λ image. IsVerdict image 1 verdict) }
    requires of_image { OnImage (D.state disk.old) (λ image. IsMountOf image m) }
    ensures exact { OnImage (D.state disk.old) (λ image.
        AnswersOrEnds (emptying_answer image (aim_at range target down)) result) }
    ensures sink_fault { OnImage (D.state disk.old) (λ image. result ≡ Answer.SinkFault
        → IsWhole (emptying_answer image (aim_at range target down))) }
    ensures fault { result ≡ Answer.DiskFault → Rose (D.state disk.old).faults (D.state disk.new).faults }
    ensures sink { result ≡ Answer.SinkFault → Rose (O.faults out.old) (O.faults out.new) }
    ensures others { (result ≢ Answer.Usage) × (result ≢ Answer.Corrected) }
    ensures lines { OnImage (D.state disk.old) (λ image. let lines = emptying_lines image (aim_at range target down) in
        Appends (O.told out.old) (O.told out.new) (IsFront [] lines result)) }
    ensures silent { IsLastAlone false result → O.told out.new ≡ O.told out.old }
    ensures image { OnImage (D.state disk.old) (λ image. result ≢ Answer.DiskFault → result ≢ Answer.NoMemory
        → let aim = aim_at range target down in
        TellsOne (D.state disk.new) (LeavesEmptied image aim (emptying_answer image aim))) }
    ensures idle { IsIdle false true result → Reads (D.state disk.old) (D.state disk.new) }
    ensures none { OnImage (D.state disk.old) (λ image. HasNone image (aim_at range target down)
        → Reads (D.state disk.old) (D.state disk.new)) }
    ensures durable { IsSettled result (D.state disk.old) (D.state disk.new) }
    ensures either { KeepsTree (D.state disk.old) (D.state disk.new) }
    ensures any_moment { KeepsTreeAlways (D.state disk.old) (D.state disk.new) }
    ensures goes { Goes (D.state disk.old) (D.state disk.new) }
    ensures sink_goes { O.faults out.old ≤ O.faults out.new }
{
    match verdict {
        Verdict::Clean => empty_checked(alloc, m, range, target, down, disk, out),
        Verdict::Defects { rule, list, count } => put_defects(alloc, rule, &list, count, out),
    }
}

// Checks an image, and empties a range of it.
fn empty_mounted<D: Disk, O: Sink>(
    alloc: Global,
    m: Mount,
    range: Range,
    target: u64,
    down: bool,
    disk: &mut D,
    out: &mut O,
) -> Answer
    requires lies { (layout_in m).blocks ≤ (D.state disk.old).size }
    requires version { checkpoint_ver m.chosen.head < 2 ^ 62 }
    requires range { IsInside (layout_in m) range }
    requires target { ((layout_in m).main ≤ target) × (target ≤ area_end (layout_in m)) }
    requires readable { OnImage (D.state disk.old) (λ image. is_readable image ≡ true) }
    requires of_image { OnImage (D.state disk.old) (λ image. IsMountOf image m) }
    ensures exact { OnImage (D.state disk.old) (λ image.
        AnswersOrEnds (emptying_answer image (aim_at range target down)) result) }
    ensures sink_fault { OnImage (D.state disk.old) (λ image. result ≡ Answer.SinkFault
        → IsWhole (emptying_answer image (aim_at range target down))) }
    ensures fault { result ≡ Answer.DiskFault → Rose (D.state disk.old).faults (D.state disk.new).faults }
    ensures sink { result ≡ Answer.SinkFault → Rose (O.faults out.old) (O.faults out.new) }
    ensures others { (result ≢ Answer.Usage) × (result ≢ Answer.Corrected) }
    ensures lines { OnImage (D.state disk.old) (λ image. let lines = emptying_lines image (aim_at range target down) in
        Appends (O.told out.old) (O.told out.new) (IsFront [] lines result)) }
    ensures silent { IsLastAlone false result → O.told out.new ≡ O.told out.old }
    ensures image { OnImage (D.state disk.old) (λ image. result ≢ Answer.DiskFault → result ≢ Answer.NoMemory
        → let aim = aim_at range target down in
        TellsOne (D.state disk.new) (LeavesEmptied image aim (emptying_answer image aim))) }
    ensures idle { IsIdle false true result → Reads (D.state disk.old) (D.state disk.new) }
    ensures none { OnImage (D.state disk.old) (λ image. HasNone image (aim_at range target down)
        → Reads (D.state disk.old) (D.state disk.new)) }
    ensures durable { IsSettled result (D.state disk.old) (D.state disk.new) }
    ensures either { KeepsTree (D.state disk.old) (D.state disk.new) }
    ensures any_moment { KeepsTreeAlways (D.state disk.old) (D.state disk.new) }
    ensures goes { Goes (D.state disk.old) (D.state disk.new) }
    ensures sink_goes { O.faults out.old ≤ O.faults out.new }
{
    let mut m = m;
    match check(alloc, &mut m, disk) {
        Ok(verdict) => empty_if_clean(alloc, verdict, m, range, target, down, disk, out),
        Err(CheckRefusal::DiskFault) => Answer::DiskFault,
        Err(CheckRefusal::NoMemory) => Answer::NoMemory,
    }
}

/// Mounts the image, checks it, empties a range of its main area, and puts what moved, or the lines of its defects.
pub fn empty_range<D: Disk, O: Sink>(
    alloc: Global,
    request: &DefragRequest,
    disk: &mut D,
    out: &mut O,
) -> Answer
    // Which answer it is.
    ensures exact { OnImage (D.state disk.old) (λ image.
        AnswersOrEnds (move_answer request.now image (mounted (D.state disk.old).size image)) result) }
    ensures sink_fault { OnImage (D.state disk.old) (λ image. result ≡ Answer.SinkFault
        → IsWhole (move_answer request.now image (mounted (D.state disk.old).size image))) }
    ensures fault { result ≡ Answer.DiskFault → Rose (D.state disk.old).faults (D.state disk.new).faults }
    ensures sink { result ≡ Answer.SinkFault → Rose (O.faults out.old) (O.faults out.new) }
    ensures others { (result ≢ Answer.Usage) × (result ≢ Answer.Corrected) }

    // The lines that it puts.
    ensures lines { OnImage (D.state disk.old) (λ image.
        let mount = mounted (D.state disk.old).size image in
        Appends (O.told out.old) (O.told out.new) (IsFront [] (move_lines request.now image mount) result)) }
    ensures silent { IsLastAlone false result → O.told out.new ≡ O.told out.old }

    // The image that it leaves.
    ensures image { OnImage (D.state disk.old) (λ image. result ≢ Answer.DiskFault → result ≢ Answer.NoMemory
        → TellsOne (D.state disk.new) (LeavesMoved request.now image (mounted (D.state disk.old).size image))) }
    ensures idle { IsIdle false true result → Reads (D.state disk.old) (D.state disk.new) }
    ensures none { OnImage (D.state disk.old) (λ image. HasNone image (aim_of (layout image) request.now)
        → Reads (D.state disk.old) (D.state disk.new)) }
    ensures durable { IsSettled result (D.state disk.old) (D.state disk.new) }

    // Whatever it answers, and at any moment, a checked image stays one with the same tree.
    ensures either { KeepsTree (D.state disk.old) (D.state disk.new) }
    ensures any_moment { KeepsTreeAlways (D.state disk.old) (D.state disk.new) }
    ensures goes { Goes (D.state disk.old) (D.state disk.new) }
    ensures sink_goes { O.faults out.old ≤ O.faults out.new }
{
    match mount(alloc, disk) {
        Ok(m) => match aim(&m.layout(), request) {
            Ok((range, target)) => empty_mounted(alloc, m, range, target, request.down, disk, out),
            Err(number) => Answer::Refused(Refusal::OutOfRange(number)),
        },
        Err(refusal) => refused(refusal),
    }
}
