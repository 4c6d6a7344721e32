// The top call.
ghost use Rattle.std.specs.Prelude.{◌≡◌, ◌≢◌, ◌≤◌, ◌⊎◌, ◌++◌, map, string_bytes, List, ℕ, Some, None, true, false};
ghost use Rattle.f2_bytes.specs.Bytes.{Image};
ghost use Rattle.f2_bytes.specs.Superblock.{has_twins};
ghost use Rattle.f2_disk.specs.Disk.{Reads, Goes, Rose};
ghost use Rattle.f2_super.specs.Load.{KeepsSuper};
ghost use Rattle.f2_top.specs.Answers.{IsSuccess, IsIdle, IsLastAlone, IsWhole};
ghost use Rattle.f2_top.specs.Disks.{IsSettled, OnImage};
ghost use Rattle.f2_top.specs.Jobs.{takes_memory, makes_image, moves_blocks, has_no_lines, HasKnownFeatures, IsReading};
ghost use Rattle.f2_top.specs.Tools.{job_of, is_super};
ghost use Rattle.f2_top.specs.Text.{Appends, IsFront, last_of};
ghost use Rattle.f2_top.specs.Ranges.{KeepsTree, KeepsTreeAlways};
ghost use Rattle.f2_top.specs.Repairs.{Repairs, RepairsAlways};
ghost use Rattle.f2_top.specs.Run.{answer_of, IsLeft, AreLines, AreSizes, Allowed, IsAnswered, MovesNone, Printed};
ghost use Rattle.f2_top.specs.declared.jobs.Job.TheVariants.{Check, Tree, Super, Dump, Defrag, Mkfs};

use crate::Answer;
use crate::checks::check_image;
use crate::dumps::dump_image;
use crate::jobs::{Job, WordsRefusal};
use crate::moves::{DefragRequest, empty_range};
use crate::new_images::make_image;
use crate::report::put_last;
use crate::super_copies::repair_copies;
use crate::words::job;
use f2_disk::{Disk, Sink};
use f2_mkfs::Options;
use std::alloc::Global;

// Does the job, and puts its lines but for the last one.
fn answer<D: Disk, O: Sink>(
    alloc: Global,
    job: &Option<Job>,
    disk: &mut D,
    out: &mut O,
    moment: u64,
    id: [u8; 16],
) -> Answer
    requires { HasKnownFeatures job.now }
    ensures allowed { (result ≡ Answer.SinkFault) ⊎ Allowed job.now (D.state disk.old) (D.state disk.new) result }
    ensures sink_fault { result ≡ Answer.SinkFault → Rose (O.faults out.old) (O.faults out.new) }
    ensures stopped { OnImage (D.state disk.old) (λ image. result ≡ Answer.SinkFault
        → IsWhole (answer_of job.now (D.state disk.old).size image)) }
    ensures stopped_sizes { result ≡ Answer.SinkFault → AreSizes job.now (D.state disk.old).size Answer.Done }
    ensures stopped_job { result ≡ Answer.SinkFault → job.now ≢ None }
    ensures memory { takes_memory job.now ≡ false → result ≢ Answer.NoMemory }
    ensures lines { (early lines : List ℕ) → AreLines job.now (D.state disk.old) early lines
        → Appends (O.told out.old) (O.told out.new) (IsFront early lines result) }
    ensures silent { IsLastAlone (has_no_lines job.now) result → O.told out.new ≡ O.told out.old }
    ensures image { OnImage (D.state disk.old) (λ image. result ≢ Answer.DiskFault → result ≢ Answer.NoMemory
        → IsLeft job.now moment id (D.state disk.old).size image (D.state disk.new).told) }
    ensures twins { IsSuccess result → job.now ≡ Some Super
        → OnImage (D.state disk.new) (λ image. has_twins image ≡ true) }
    ensures idle { IsIdle (makes_image job.now) (moves_blocks job.now) result
        → Reads (D.state disk.old) (D.state disk.new) }
    ensures unwritten { IsReading job.now → Reads (D.state disk.old) (D.state disk.new) }
    ensures none { OnImage (D.state disk.old) (λ image. MovesNone job.now image
        → Reads (D.state disk.old) (D.state disk.new)) }
    ensures durable { IsSettled result (D.state disk.old) (D.state disk.new) }
    ensures repairs { job.now ≡ Some Super → Repairs (D.state disk.old) (D.state disk.new) }
    ensures repairing { job.now ≡ Some Super → RepairsAlways (D.state disk.old) (D.state disk.new) }
    ensures either { moves_blocks job.now ≡ true → KeepsTree (D.state disk.old) (D.state disk.new) }
    ensures moving { moves_blocks job.now ≡ true → KeepsTreeAlways (D.state disk.old) (D.state disk.new) }
    ensures any_moment { makes_image job.now ≡ false → KeepsSuper (D.state disk.old) (D.state disk.new) }
    ensures goes { Goes (D.state disk.old) (D.state disk.new) }
    ensures sink_goes { O.faults out.old ≤ O.faults out.new }
{
    match job {
        Some(Job::Check) => check_image(alloc, false, disk, out),
        Some(Job::Tree) => check_image(alloc, true, disk, out),
        Some(Job::Super) => repair_copies(disk),
        Some(Job::Dump(what)) => dump_image(alloc, *what, disk, out),
        Some(
            Job::Defrag {
                start,
                blocks,
                target,
                down,
            },
        ) => {
            let request = DefragRequest {
                start: *start,
                blocks: *blocks,
                target: *target,
                down: *down,
            };
            empty_range(alloc, &request, disk, out)
        }
        Some(
            Job::Mkfs {
                sectors,
                label,
                uuid,
                second,
                features,
                force,
            },
        ) => {
            let options = Options {
                sectors: *sectors,
                label: *label,
                uuid: uuid.unwrap_or(id),
                second: second.unwrap_or(moment),
                features: *features,
                force: *force,
            };
            make_image(alloc, &options, disk, out)
        }
        None => Answer::Usage,
    }
}

/// Does the job, if there is one, and puts the text of its answer, as `run` does.
pub fn perform<D: Disk, O: Sink>(
    alloc: Global,
    job: &Option<Job>,
    disk: &mut D,
    out: &mut O,
    moment: u64,
    id: [u8; 16],
) -> Answer
    requires { HasKnownFeatures job.now }
    ensures answer { (result ≡ Answer.SinkFault) ⊎ Allowed job.now (D.state disk.old) (D.state disk.new) result }
    ensures sink_fault { result ≡ Answer.SinkFault → Rose (O.faults out.old) (O.faults out.new) }
    ensures memory { takes_memory job.now ≡ false → result ≢ Answer.NoMemory }
    ensures text { (had early lines : List ℕ) → O.told out.old ≡ Some had
        → AreLines job.now (D.state disk.old) early lines
        → Printed job.now early lines (D.state disk.old) (D.state disk.new) result had (O.told out.new) }
    ensures last { (had : List ℕ) → O.told out.old ≡ Some had → IsLastAlone (has_no_lines job.now) result
        → O.told out.new ≡ Some (had ++ last_of job.now result) }
    ensures image { OnImage (D.state disk.old) (λ image. result ≢ Answer.DiskFault → result ≢ Answer.NoMemory
        → (result ≡ Answer.SinkFault → ¬ (Rose (D.state disk.old).faults (D.state disk.new).faults))
        → IsLeft job.now moment id (D.state disk.old).size image (D.state disk.new).told) }
    ensures twins { IsSuccess result → job.now ≡ Some Super
        → OnImage (D.state disk.new) (λ image. has_twins image ≡ true) }
    ensures idle { IsIdle (makes_image job.now) (moves_blocks job.now) result
        → Reads (D.state disk.old) (D.state disk.new) }
    ensures reads { IsReading job.now → Reads (D.state disk.old) (D.state disk.new) }
    ensures none { OnImage (D.state disk.old) (λ image. MovesNone job.now image
        → Reads (D.state disk.old) (D.state disk.new)) }
    ensures durable { IsSettled result (D.state disk.old) (D.state disk.new) }
    ensures complete { OnImage (D.state disk.old) (λ image. ¬ (Rose (D.state disk.old).faults (D.state disk.new).faults)
        → ¬ (Rose (O.faults out.old) (O.faults out.new))
        → IsAnswered job.now (D.state disk.old).size image result) }
    ensures repairs { job.now ≡ Some Super → Repairs (D.state disk.old) (D.state disk.new) }
    ensures repairing { job.now ≡ Some Super → RepairsAlways (D.state disk.old) (D.state disk.new) }
    ensures either { moves_blocks job.now ≡ true → KeepsTree (D.state disk.old) (D.state disk.new) }
    ensures moving { moves_blocks job.now ≡ true → KeepsTreeAlways (D.state disk.old) (D.state disk.new) }
    ensures any_moment { makes_image job.now ≡ false → KeepsSuper (D.state disk.old) (D.state disk.new) }
    ensures goes { Goes (D.state disk.old) (D.state disk.new) }
    ensures sink_goes { O.faults out.old ≤ O.faults out.new }
{
    let answer = answer(alloc, job, disk, out, moment, id);
    match put_last(out, job, &answer) {
        Ok(()) => answer,
        Err(_) => Answer::SinkFault,
    }
}

/// Does the job that the words name, and puts the text of its answer.
///
/// The words are those of the command line after the image, the tool and its options; docs/COMMANDS.md has them.
/// `moment` is the second of the clock and `id` a uuid: a new image has them where the words give none, and no other
/// job looks at them. `fsck --super`, `defrag` and `mkfs` put nothing before the disk's last write, so a fault of the
/// sink leaves on the disk what the job's own answer leaves, and exactly `fsck --super` takes no memory. A dump of a
/// number that lies outside, or that the image has no inode of, puts nothing but its last line, and so does an image
/// that isn't made. A check puts a line for each defect that it lists, and so does `defrag` where it finds some; the
/// tree is put of an image without defects alone. Once the words are found to name a job, the disk's first call is for
/// its size.
#[tactic(auto, using(crate::proofs::KnownFeatures::job_known))]
pub fn run<D: Disk, O: Sink>(
    alloc: Global,
    words: &[String],
    disk: &mut D,
    out: &mut O,
    moment: u64,
    id: [u8; 16],
) -> Answer
    // Which answer it is.
    ensures answer { let named = job_of (map string_bytes words.now) in
        (result ≡ Answer.SinkFault) ⊎ Allowed named (D.state disk.old) (D.state disk.new) result }
    ensures sink_fault { result ≡ Answer.SinkFault → Rose (O.faults out.old) (O.faults out.new) }
    ensures memory { is_super (map string_bytes words.now) ≡ true → result ≢ Answer.NoMemory }

    // What it prints. The lines of a check, of a dump and of what moved are those of an image that the disk tells.
    ensures text { let named = job_of (map string_bytes words.now) in
        (had early lines : List ℕ) → O.told out.old ≡ Some had → AreLines named (D.state disk.old) early lines
        → Printed named early lines (D.state disk.old) (D.state disk.new) result had (O.told out.new) }

    // With these answers the last line alone, on every disk.
    ensures last { let named = job_of (map string_bytes words.now) in
        (had : List ℕ) → O.told out.old ≡ Some had → IsLastAlone (has_no_lines named) result
        → O.told out.new ≡ Some (had ++ last_of named result) }

    // What it leaves on a disk that tells its blocks, unless that had a fault or memory was short.
    ensures image { let named = job_of (map string_bytes words.now) in
        OnImage (D.state disk.old) (λ image. result ≢ Answer.DiskFault → result ≢ Answer.NoMemory
        → (result ≡ Answer.SinkFault → ¬ (Rose (D.state disk.old).faults (D.state disk.new).faults))
        → IsLeft named moment id (D.state disk.old).size image (D.state disk.new).told) }
    ensures twins { let named = job_of (map string_bytes words.now) in
        IsSuccess result → named ≡ Some Super → OnImage (D.state disk.new) (λ image. has_twins image ≡ true) }

    // With these answers, and unless it repairs the superblock copies, makes an image or moves blocks, it writes
    // nothing; nor does it where no block of the range is valid, or the image fails a rule.
    ensures idle { let named = job_of (map string_bytes words.now) in
        IsIdle (makes_image named) (moves_blocks named) result → Reads (D.state disk.old) (D.state disk.new) }
    ensures reads { IsReading (job_of (map string_bytes words.now)) → Reads (D.state disk.old) (D.state disk.new) }
    ensures none { let named = job_of (map string_bytes words.now) in
        OnImage (D.state disk.old) (λ image. MovesNone named image → Reads (D.state disk.old) (D.state disk.new)) }
    ensures durable { IsSettled result (D.state disk.old) (D.state disk.new) }

    // Unless the disk or the sink has a fault or memory is short, it answers by the image: fsck --super on an image
    // that can be loaded Done exactly where both superblock copies pass and agree, else Corrected; fsck and fsck -t on
    // an image that can be mounted Done exactly where it meets all rules, else Defects with the least rule that it
    // fails; a dump of such an image Done, or OutOfRange exactly where a number of it lies outside, or NoSuchNode
    // exactly where it asks for an inode or a file that the image lacks; defrag of such an image OutOfRange exactly
    // where a number of it lies outside, else Defects exactly where the image fails a rule, else NoSpace exactly where
    // fewer segments are free than the moves need, else Done; mkfs Done, or the first refusal for the sizes or for what
    // the disk holds.
    ensures complete { let named = job_of (map string_bytes words.now) in
        OnImage (D.state disk.old) (λ image. ¬ (Rose (D.state disk.old).faults (D.state disk.new).faults)
        → ¬ (Rose (O.faults out.old) (O.faults out.new))
        → IsAnswered named (D.state disk.old).size image result) }

    // Whatever fsck --super answers, no block differs but that of the other superblock copy, which is the old one, the
    // new one or torn; and so it is in a crash at any moment of it.
    ensures repairs { let named = job_of (map string_bytes words.now) in
        named ≡ Some Super → Repairs (D.state disk.old) (D.state disk.new) }
    ensures repairing { let named = job_of (map string_bytes words.now) in
        named ≡ Some Super → RepairsAlways (D.state disk.old) (D.state disk.new) }

    // Whatever defrag answers, a checked image stays one with the same tree and superblock copies; and so it does in a
    // crash at any moment of it.
    ensures either { let named = job_of (map string_bytes words.now) in
        moves_blocks named ≡ true → KeepsTree (D.state disk.old) (D.state disk.new) }
    ensures moving { let named = job_of (map string_bytes words.now) in
        moves_blocks named ≡ true → KeepsTreeAlways (D.state disk.old) (D.state disk.new) }

    // A crash at any moment leaves an image with the same superblock, unless it makes a new one.
    ensures any_moment { let named = job_of (map string_bytes words.now) in
        makes_image named ≡ false → KeepsSuper (D.state disk.old) (D.state disk.new) }
    ensures goes { Goes (D.state disk.old) (D.state disk.new) }
    ensures sink_goes { O.faults out.old ≤ O.faults out.new }
{
    match job(alloc, words) {
        Ok(job) => perform(alloc, &Some(job), disk, out, moment, id),
        Err(WordsRefusal::Usage) => perform(alloc, &None, disk, out, moment, id),
        Err(WordsRefusal::NoMemory) => Answer::NoMemory,
    }
}
