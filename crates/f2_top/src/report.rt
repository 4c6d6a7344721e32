// The lines that a run puts.
ghost use Rattle.std.specs.Prelude.{◌≡◌, ◌++◌, decimal, codes, IsOk};
ghost use Rattle.f2_disk.specs.Sink.{Puts};
ghost use Rattle.f2_top.specs.Text.{moved_line, refusal_line, last_line, last_of};

use crate::jobs::Job;
use crate::{Answer, Refusal};
use f2_disk::{Sink, SinkFault};
use itoa::Buffer;

// Puts a text, a number in decimal, and a text.
fn put_number<O: Sink>(
    out: &mut O,
    before: &[u8],
    number: u64,
    after: &[u8],
) -> Result<(), SinkFault>
    ensures { Puts (before.now ++ decimal number ++ after.now)
        (O.told out.old) (O.told out.new) (O.faults out.old) (O.faults out.new) result }
{
    let mut buffer = Buffer::new();
    out.put(before)?;
    out.put(buffer.format(number).as_bytes())?;
    out.put(after)
}

/// Puts a line of a text, a number in decimal, a text, and a number.
pub fn put_pair<O: Sink>(
    out: &mut O,
    before: &[u8],
    first: u64,
    between: &[u8],
    second: u64,
) -> Result<(), SinkFault>
    ensures { Puts (before.now ++ decimal first ++ between.now ++ decimal second ++ codes "\n")
        (O.told out.old) (O.told out.new) (O.faults out.old) (O.faults out.new) result }
{
    put_number(out, before, first, between)?;
    put_number(out, b"", second, b"\n")
}

/// Puts the line of what moved.
pub fn put_moved<O: Sink>(out: &mut O, blocks: u64, batches: u64) -> Result<(), SinkFault>
    ensures { Puts (moved_line blocks batches)
        (O.told out.old) (O.told out.new) (O.faults out.old) (O.faults out.new) result }
{
    put_number(out, b"moved ", blocks, b"")?;
    put_number(out, b" blocks in ", batches, b" batches\n")
}

fn put_refusal<O: Sink>(out: &mut O, refusal: &Refusal) -> Result<(), SinkFault>
    ensures { Puts (refusal_line refusal.now)
        (O.told out.old) (O.told out.new) (O.faults out.old) (O.faults out.new) result }
{
    match refusal {
        Refusal::NoSuper => out.put(b"refused 1 NoSuper\n"),
        Refusal::Unsupported(bits) => {
            put_number(out, b"refused 2 Unsupported ", u64::from(*bits), b"\n")
        }
        Refusal::TooLarge(blocks) => put_number(out, b"refused 3 TooLarge ", *blocks, b"\n"),
        Refusal::Truncated { blocks, held } => {
            put_pair(out, b"refused 4 Truncated ", *blocks, b" ", *held)
        }
        Refusal::NoPack => out.put(b"refused 5 NoPack\n"),
        Refusal::VersionLimit(version) => {
            put_number(out, b"refused 6 VersionLimit ", *version, b"\n")
        }
        Refusal::BadSummary(count) => {
            put_number(out, b"refused 7 BadSummary ", u64::from(*count), b"\n")
        }
        Refusal::DeviceTooSmall { blocks, held } => {
            put_pair(out, b"refused 11 DeviceTooSmall ", *blocks, b" ", *held)
        }
        Refusal::TooSmall { main, least } => {
            put_pair(out, b"refused 12 TooSmall ", *main, b" ", *least)
        }
        Refusal::OutOfRange(number) => put_number(out, b"refused 14 OutOfRange ", *number, b"\n"),
        Refusal::NoSuchNode(ino) => {
            put_number(out, b"refused 15 NoSuchNode ", u64::from(*ino), b"\n")
        }
        Refusal::Exists => out.put(b"refused 16 Exists\n"),
    }
}

// Puts the last line of an answer. For `SinkFault` and `NoMemory` there is none.
fn put_line<O: Sink>(out: &mut O, answer: &Answer) -> Result<(), SinkFault>
    ensures line { Puts (last_line answer.now)
        (O.told out.old) (O.told out.new) (O.faults out.old) (O.faults out.new) result }
    ensures none { answer.now ≡ Answer.NoMemory → IsOk result }
{
    match answer {
        Answer::Done => out.put(b"done\n"),
        Answer::Corrected => out.put(b"corrected\n"),
        Answer::Defects { count, .. } => put_number(out, b"defects ", *count, b"\n"),
        Answer::NoSpace { need, have } => {
            put_pair(out, b"no space: need ", *need, b", have ", *have)
        }
        Answer::DiskFault => out.put(b"disk fault\n"),
        Answer::Usage => out.put(b"usage: f2tools IMAGE TOOL OPTIONS\n"),
        Answer::Refused(refusal) => put_refusal(out, refusal),
        Answer::SinkFault | Answer::NoMemory => Ok(()),
    }
}

/// Puts the last line of a job's answer. A dump that is done has none.
pub fn put_last<O: Sink>(out: &mut O, job: &Option<Job>, answer: &Answer) -> Result<(), SinkFault>
    ensures line { Puts (last_of job.now answer.now)
        (O.told out.old) (O.told out.new) (O.faults out.old) (O.faults out.new) result }
    ensures none { answer.now ≡ Answer.NoMemory → IsOk result }
{
    match (job, answer) {
        (Some(Job::Dump(_)), Answer::Done) => Ok(()),
        _ => put_line(out, answer),
    }
}
