// The jobs that check an image.
ghost use Rattle.std.specs.Prelude.{◌≡◌, ◌≢◌, ◌≤◌, ◌⊎◌, ◌++◌, not, List, ℕ, Some, None, IfOk, OnOk, flat_map, map};
ghost use Rattle.f2_bytes.specs.Bytes.{Image};
ghost use Rattle.f2_defects.specs.Collected.{defect_in};
ghost use Rattle.f2_disk.specs.Disk.{Reads, Goes, Rose};
ghost use Rattle.f2_dump.specs.Trees.{tree_lines};
ghost use Rattle.f2_view.specs.Mounted.{IsMountOf, layout_in};
ghost use Rattle.f2_view.specs.Mounting.{mounted};
ghost use Rattle.f2_top.specs.Answers.{AnswersOrEnds, IsLastAlone, IsWhole};
ghost use Rattle.f2_top.specs.Disks.{OnImage};
ghost use Rattle.f2_top.specs.Run.{least_failing, clean_lines, verdict_answer, verdict_lines, said_answer, said_lines, check_answer, checked_lines};
ghost use Rattle.f2_top.specs.Text.{Appends, IsFront, IsFrontOf, defect_line};

use crate::Answer;
use crate::mounts::refused;
use f2_check::{CheckRefusal, Defect, Verdict, check};
use f2_disk::{Disk, Sink};
use f2_dump::{DumpRefusal, dump_tree, push_decimal};
use f2_view::{Mount, mount};
use std::alloc::{AllocError, Global};

// Appends the line of a defect by a rule.
fn push_defect(text: &mut Vec<u8>, rule: u8, d: &Defect) -> Result<(), AllocError>
    ensures { OnOk result (text.new.items ≡ text.old.items ++ defect_line rule (defect_in d.now)) }
{
    text.extend_from_slice(b"E")?;
    push_decimal(text, u64::from(rule), b".")?;
    push_decimal(text, u64::from(d.part), b" ")?;
    push_decimal(text, d.a, b" ")?;
    push_decimal(text, d.b, b" ")?;
    push_decimal(text, d.found, b" ")?;
    push_decimal(text, d.wanted, b"\n")
}

// The lines of defects by a rule.
fn defect_text(alloc: Global, rule: u8, list: &[Defect]) -> Result<Vec<u8>, AllocError>
    ensures { IfOk result (λ text. text.items ≡ flat_map (defect_line rule) (map defect_in list.now)) }
{
    let mut text = Vec::new(alloc);
    for d in list {
        push_defect(&mut text, rule, d)?;
    }
    Ok(text)
}

// Puts the lines of the defects that are listed, of so many by a rule.
pub fn put_defects<O: Sink>(
    alloc: Global,
    rule: u8,
    list: &[Defect],
    count: u64,
    out: &mut O,
) -> Answer
    ensures kind { (result ≡ Answer.Defects rule count) ⊎ ((result ≡ Answer.NoMemory) ⊎ (result ≡ Answer.SinkFault)) }
    ensures sink { result ≡ Answer.SinkFault → Rose (O.faults out.old) (O.faults out.new) }
    ensures lines { (early : List ℕ) → let lines = flat_map (defect_line rule) (map defect_in list.now) in
        Appends (O.told out.old) (O.told out.new) (IsFront early lines result) }
    ensures sink_goes { O.faults out.old ≤ O.faults out.new }
{
    match defect_text(alloc, rule, list) {
        Ok(text) => match out.put(&text) {
            Ok(()) => Answer::Defects { rule, count },
            Err(_) => Answer::SinkFault,
        },
        Err(_) => Answer::NoMemory,
    }
}

// Puts the lines of the tree.
fn put_tree<D: Disk, O: Sink>(alloc: Global, m: &mut Mount, disk: &mut D, out: &mut O) -> Answer
    requires lies { (layout_in m.old).blocks ≤ (D.state disk.old).size }
    ensures kind { AnswersOrEnds Answer.Done result }
    ensures fault { result ≡ Answer.DiskFault → Rose (D.state disk.old).faults (D.state disk.new).faults }
    ensures sink { result ≡ Answer.SinkFault → Rose (O.faults out.old) (O.faults out.new) }
    ensures lines { OnImage (D.state disk.old) (λ image. IsMountOf image m.old
        → Appends (O.told out.old) (O.told out.new) (IsFront (tree_lines image) (tree_lines image) result)) }
    ensures reads { Reads (D.state disk.old) (D.state disk.new) }
    ensures goes { Goes (D.state disk.old) (D.state disk.new) }
    ensures sink_goes { O.faults out.old ≤ O.faults out.new }
{
    match dump_tree(alloc, m, disk, out) {
        Ok(()) => Answer::Done,
        Err(DumpRefusal::DiskFault) => Answer::DiskFault,
        Err(DumpRefusal::SinkFault) => Answer::SinkFault,
        // it refuses no number
        Err(_) => Answer::NoMemory,
    }
}

// Puts the lines of an image that meets the rules: those of its tree, where that is asked for.
fn put_clean<D: Disk, O: Sink>(
    alloc: Global,
    tree: bool,
    m: &mut Mount,
    disk: &mut D,
    out: &mut O,
) -> Answer
    requires lies { (layout_in m.old).blocks ≤ (D.state disk.old).size }
    ensures kind { AnswersOrEnds Answer.Done result }
    ensures fault { result ≡ Answer.DiskFault → Rose (D.state disk.old).faults (D.state disk.new).faults }
    ensures sink { result ≡ Answer.SinkFault → Rose (O.faults out.old) (O.faults out.new) }
    ensures lines { OnImage (D.state disk.old) (λ image. IsMountOf image m.old → let lines = clean_lines tree image in
        Appends (O.told out.old) (O.told out.new) (IsFront lines lines result)) }
    ensures silent { IsLastAlone (not tree) result → O.told out.new ≡ O.told out.old }
    ensures reads { Reads (D.state disk.old) (D.state disk.new) }
    ensures goes { Goes (D.state disk.old) (D.state disk.new) }
    ensures sink_goes { O.faults out.old ≤ O.faults out.new }
{
    if tree {
        put_tree(alloc, m, disk, out)
    } else {
        Answer::Done
    }
}

// Puts the lines of a verdict.
pub fn put_verdict<D: Disk, O: Sink>(
    alloc: Global,
    tree: bool,
    verdict: Verdict,
    m: &mut Mount,
    disk: &mut D,
    out: &mut O,
) -> Answer
    requires lies { (layout_in m.old).blocks ≤ (D.state disk.old).size }
    ensures kind { AnswersOrEnds (said_answer verdict) result }
    ensures fault { result ≡ Answer.DiskFault → Rose (D.state disk.old).faults (D.state disk.new).faults }
    ensures sink { result ≡ Answer.SinkFault → Rose (O.faults out.old) (O.faults out.new) }
    ensures others { (result ≢ Answer.Usage) × (result ≢ Answer.Corrected) }
    ensures lines { OnImage (D.state disk.old) (λ image. IsMountOf image m.old
        → let lines = said_lines tree image verdict in
        Appends (O.told out.old) (O.told out.new) (IsFrontOf (said_answer verdict) lines result)) }
    ensures silent { IsLastAlone (not tree) result → O.told out.new ≡ O.told out.old }
    ensures reads { Reads (D.state disk.old) (D.state disk.new) }
    ensures goes { Goes (D.state disk.old) (D.state disk.new) }
    ensures sink_goes { O.faults out.old ≤ O.faults out.new }
{
    match verdict {
        Verdict::Clean => put_clean(alloc, tree, m, disk, out),
        Verdict::Defects { rule, list, count } => put_defects(alloc, rule, &list, count, out),
    }
}

// Checks a mounted image, and puts its lines.
fn check_mounted<D: Disk, O: Sink>(
    alloc: Global,
    tree: bool,
    m: &mut Mount,
    disk: &mut D,
    out: &mut O,
) -> Answer
    requires lies { (layout_in m.old).blocks ≤ (D.state disk.old).size }
    ensures exact { OnImage (D.state disk.old) (λ image. IsMountOf image m.old
        → AnswersOrEnds (verdict_answer image (least_failing image)) result) }
    ensures fault { result ≡ Answer.DiskFault → Rose (D.state disk.old).faults (D.state disk.new).faults }
    ensures sink { result ≡ Answer.SinkFault → Rose (O.faults out.old) (O.faults out.new) }
    ensures others { (result ≢ Answer.Usage) × (result ≢ Answer.Corrected) }
    ensures lines { OnImage (D.state disk.old) (λ image. IsMountOf image m.old → let least = least_failing image in
        let lines = verdict_lines tree image least in
        Appends (O.told out.old) (O.told out.new) (IsFrontOf (verdict_answer image least) lines result)) }
    ensures silent { IsLastAlone (not tree) result → O.told out.new ≡ O.told out.old }
    ensures reads { Reads (D.state disk.old) (D.state disk.new) }
    ensures goes { Goes (D.state disk.old) (D.state disk.new) }
    ensures sink_goes { O.faults out.old ≤ O.faults out.new }
{
    match check(alloc, m, disk) {
        Ok(verdict) => put_verdict(alloc, tree, verdict, m, disk, out),
        Err(CheckRefusal::DiskFault) => Answer::DiskFault,
        Err(CheckRefusal::NoMemory) => Answer::NoMemory,
    }
}

/// Mounts the image, checks it, and puts the lines of its defects, or of its tree where that is asked for and it has
/// none.
pub fn check_image<D: Disk, O: Sink>(alloc: Global, tree: bool, disk: &mut D, out: &mut O) -> Answer
    // Which answer it is.
    ensures exact { OnImage (D.state disk.old) (λ image.
        AnswersOrEnds (check_answer image (mounted (D.state disk.old).size image)) result) }
    ensures sink_fault { OnImage (D.state disk.old) (λ image. result ≡ Answer.SinkFault
        → IsWhole (check_answer image (mounted (D.state disk.old).size image))) }
    ensures fault { result ≡ Answer.DiskFault → Rose (D.state disk.old).faults (D.state disk.new).faults }
    ensures sink { result ≡ Answer.SinkFault → Rose (O.faults out.old) (O.faults out.new) }
    ensures others { (result ≢ Answer.Usage) × (result ≢ Answer.Corrected) }

    // The lines that it puts.
    ensures lines { OnImage (D.state disk.old) (λ image. let mount = mounted (D.state disk.old).size image in
        let lines = checked_lines tree image mount in
        Appends (O.told out.old) (O.told out.new) (IsFrontOf (check_answer image mount) lines result)) }
    // With these answers none, on every disk.
    ensures silent { IsLastAlone (not tree) result → O.told out.new ≡ O.told out.old }

    // It reads alone.
    ensures reads { Reads (D.state disk.old) (D.state disk.new) }
    ensures goes { Goes (D.state disk.old) (D.state disk.new) }
    ensures sink_goes { O.faults out.old ≤ O.faults out.new }
{
    match mount(alloc, disk) {
        Ok(mut m) => check_mounted(alloc, tree, &mut m, disk, out),
        Err(refusal) => refused(refusal),
    }
}
