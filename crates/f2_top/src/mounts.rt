// The answers for images that can't be mounted.
ghost use Rattle.std.specs.Prelude.{◌≡◌};
ghost use Rattle.f2_top.specs.Run.{mount_answer};

use crate::{Answer, Refusal};
use f2_view::MountRefusal;

/// The answer for an image that can't be mounted.
pub fn refused(refusal: MountRefusal) -> Answer
    ensures { result ≡ mount_answer refusal }
{
    match refusal {
        MountRefusal::NoSuper => Answer::Refused(Refusal::NoSuper),
        MountRefusal::Unsupported(bits) => Answer::Refused(Refusal::Unsupported(bits)),
        MountRefusal::TooLarge(blocks) => Answer::Refused(Refusal::TooLarge(blocks)),
        MountRefusal::Truncated { blocks, held } => {
            Answer::Refused(Refusal::Truncated { blocks, held })
        }
        MountRefusal::NoPack => Answer::Refused(Refusal::NoPack),
        MountRefusal::VersionLimit(version) => Answer::Refused(Refusal::VersionLimit(version)),
        MountRefusal::BadSummary(count) => Answer::Refused(Refusal::BadSummary(count)),
        MountRefusal::DiskFault => Answer::DiskFault,
        MountRefusal::NoMemory => Answer::NoMemory,
    }
}
