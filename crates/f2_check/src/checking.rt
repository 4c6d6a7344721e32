// The check of an image.
ghost use Rattle.std.specs.Prelude.{◌≡◌, ◌≤◌, ◌↔◌, length, true, IfOk, IsErrOf, Some};
ghost use Rattle.f2_bytes.specs.Bytes.{Image};
ghost use Rattle.f2_bytes.specs.Check.{is_checked, is_checked_body};
ghost use Rattle.f2_defects.specs.Verdicts.{IsVerdict};
ghost use Rattle.f2_disk.specs.Disk.{Reads, Goes, Rose};
ghost use Rattle.f2_rules.specs.Worked.{IsWork};
ghost use Rattle.f2_survey.specs.Parts.{MeetsBefore};
ghost use Rattle.f2_view.specs.Mounted.{layout_in, IsMountOf};

use f2_areas::{checkpoint_defects, copy_defects};
use f2_defects::{CheckRefusal, Verdict};
use f2_disk::Disk;
use f2_rules::{Work, node_defects, rule_defects};
use f2_view::Mount;
use std::alloc::Global;

// Checks an image by the rules from the fourth on, where it meets those before.
fn check_rules<D: Disk>(
    alloc: Global,
    m: &mut Mount,
    d: &mut D,
    work: &Work,
) -> Result<Verdict, CheckRefusal>
    requires table { length work.now.entries.items ≡ (layout_in m.old).segments }
    requires lies { (layout_in m.old).blocks ≤ (D.state d.old).size }
    ensures verdict { IfOk result (λ v. (image : Image) → (D.state d.old).told ≡ Some image → IsMountOf image m.old → MeetsBefore image 4
        → IsWork image work.now → IsVerdict image 4 v) }
    ensures mount { m.new ≡ m.old }
    ensures reads { Reads (D.state d.old) (D.state d.new) }
    ensures goes { Goes (D.state d.old) (D.state d.new) }
    ensures fault { IsErrOf result CheckRefusal.DiskFault → Rose (D.state d.old).faults (D.state d.new).faults }
{
    // the layout of a mount is in order, so that the defects can be counted
    let _ = m.layout();
    for rule in 4..13u8 {
        let found = rule_defects(alloc, m, d, rule, work)?;
        if !found.is_empty() {
            return Ok(found.verdict(rule));
        }
    }
    Ok(Verdict::Clean)
}

// Checks an image by the rules from the third on, where it meets the second.
fn check_nodes<D: Disk>(alloc: Global, m: &mut Mount, d: &mut D) -> Result<Verdict, CheckRefusal>
    requires lies { (layout_in m.old).blocks ≤ (D.state d.old).size }
    ensures verdict { IfOk result (λ v. (image : Image) → (D.state d.old).told ≡ Some image → IsMountOf image m.old → MeetsBefore image 3 → IsVerdict image 3 v) }
    ensures mount { m.new ≡ m.old }
    ensures reads { Reads (D.state d.old) (D.state d.new) }
    ensures goes { Goes (D.state d.old) (D.state d.new) }
    ensures fault { IsErrOf result CheckRefusal.DiskFault → Rose (D.state d.old).faults (D.state d.new).faults }
{
    let _ = m.layout();
    let (found, work) = node_defects(alloc, m, d)?;
    if !found.is_empty() {
        return Ok(found.verdict(3));
    }
    check_rules(alloc, m, d, &work)
}

/// Checks a mounted image by the rules from the second on. Each rule is looked at where the image meets those before it.
///
/// It reads alone, and answers `DiskFault` where a read failed and `NoMemory` where memory was short.
pub fn check_body<D: Disk>(alloc: Global, m: &mut Mount, d: &mut D) -> Result<Verdict, CheckRefusal>
    requires lies { (layout_in m.old).blocks ≤ (D.state d.old).size }
    // The least rule that fails, with its first defects.
    ensures verdict { IfOk result (λ v. (image : Image) → (D.state d.old).told ≡ Some image → IsMountOf image m.old → IsVerdict image 2 v) }
    // It is clean exactly where the image is checked, but for the superblock copies.
    ensures clean { IfOk result (λ v. (image : Image) → (D.state d.old).told ≡ Some image → IsMountOf image m.old
        → (v ≡ Verdict.Clean) ↔ (is_checked_body image ≡ true)) }
    ensures mount { m.new ≡ m.old }
    ensures reads { Reads (D.state d.old) (D.state d.new) }
    ensures goes { Goes (D.state d.old) (D.state d.new) }
    ensures fault { IsErrOf result CheckRefusal.DiskFault → Rose (D.state d.old).faults (D.state d.new).faults }
{
    let _ = m.layout();
    let found = checkpoint_defects(alloc, m, d)?;
    if !found.is_empty() {
        return Ok(found.verdict(2));
    }
    check_nodes(alloc, m, d)
}

/// Checks a mounted image: the same, and before it that both superblock copies pass and agree.
pub fn check<D: Disk>(alloc: Global, m: &mut Mount, d: &mut D) -> Result<Verdict, CheckRefusal>
    requires lies { (layout_in m.old).blocks ≤ (D.state d.old).size }
    ensures verdict { IfOk result (λ v. (image : Image) → (D.state d.old).told ≡ Some image → IsMountOf image m.old → IsVerdict image 1 v) }
    // It is clean exactly where the image is checked.
    ensures clean { IfOk result (λ v. (image : Image) → (D.state d.old).told ≡ Some image → IsMountOf image m.old
        → (v ≡ Verdict.Clean) ↔ (is_checked image ≡ true)) }
    ensures mount { m.new ≡ m.old }
    ensures reads { Reads (D.state d.old) (D.state d.new) }
    ensures goes { Goes (D.state d.old) (D.state d.new) }
    ensures fault { IsErrOf result CheckRefusal.DiskFault → Rose (D.state d.old).faults (D.state d.new).faults }
{
    let _ = m.layout();
    let found = copy_defects(alloc, m, d)?;
    if !found.is_empty() {
        return Ok(found.verdict(1));
    }
    check_body(alloc, m, d)
}
