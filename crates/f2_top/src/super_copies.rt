// The job that repairs the superblock copies.
ghost use Rattle.std.specs.Prelude.{◌≡◌, ◌≢◌, ◌⊎◌, Some, true, false};
ghost use Rattle.f2_bytes.specs.Bytes.{Image};
ghost use Rattle.f2_bytes.specs.Superblock.{has_twins};
ghost use Rattle.f2_disk.specs.Disk.{Reads, Goes, Rose};
ghost use Rattle.f2_super.specs.Load.{loaded, KeepsSuper};
ghost use Rattle.f2_top.specs.Answers.{IsSuccess, IsIdle};
ghost use Rattle.f2_top.specs.Disks.{IsSettled, OnImage};
ghost use Rattle.f2_top.specs.Repairs.{Repairs, RepairsAlways};
ghost use Rattle.f2_top.specs.Run.{super_answer, super_image};

use crate::{Answer, Refusal};
use f2_disk::Disk;
use f2_super::{SuperRefusal, load, repair};

/// Rewrites the superblock copy that is bad or disagrees with the one that counts.
pub fn repair_copies<D: Disk>(disk: &mut D) -> Answer
    // Which answer it is.
    ensures exact { OnImage (D.state disk.old) (λ image.
        (result ≡ super_answer (loaded (D.state disk.old).size image)) ⊎ (result ≡ Answer.DiskFault)) }
    ensures fault { result ≡ Answer.DiskFault → Rose (D.state disk.old).faults (D.state disk.new).faults }
    ensures others { (result ≢ Answer.Usage) × (result ≢ Answer.SinkFault) × (result ≢ Answer.NoMemory) }

    // The image that it leaves.
    ensures image { OnImage (D.state disk.old) (λ image. result ≢ Answer.DiskFault
        → (D.state disk.new).told ≡ Some (super_image (loaded (D.state disk.old).size image) image)) }
    ensures twins { IsSuccess result → OnImage (D.state disk.new) (λ image. has_twins image ≡ true) }
    ensures idle { IsIdle false false result → Reads (D.state disk.old) (D.state disk.new) }
    ensures durable { IsSettled result (D.state disk.old) (D.state disk.new) }

    // Whatever it answers, and in a crash at any moment, no block differs but the other copy's.
    ensures repairs { Repairs (D.state disk.old) (D.state disk.new) }
    ensures repairing { RepairsAlways (D.state disk.old) (D.state disk.new) }

    // Such a crash leaves an image with the same superblock.
    ensures any_moment { KeepsSuper (D.state disk.old) (D.state disk.new) }
    ensures goes { Goes (D.state disk.old) (D.state disk.new) }
{
    match load(disk) {
        Ok(found) => {
            if found.twin {
                Answer::Done
            } else {
                match repair(disk, &found) {
                    Ok(()) => Answer::Corrected,
                    Err(_) => Answer::DiskFault,
                }
            }
        }
        Err(SuperRefusal::NoSuper) => Answer::Refused(Refusal::NoSuper),
        Err(SuperRefusal::Unsupported(bits)) => Answer::Refused(Refusal::Unsupported(bits)),
        Err(SuperRefusal::TooLarge(blocks)) => Answer::Refused(Refusal::TooLarge(blocks)),
        Err(SuperRefusal::Truncated { blocks, held }) => {
            Answer::Refused(Refusal::Truncated { blocks, held })
        }
        Err(SuperRefusal::DiskFault) => Answer::DiskFault,
    }
}
