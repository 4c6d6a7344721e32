// The job that makes a new image.
ghost use Rattle.std.specs.Prelude.{◌≡◌, ◌≢◌, ◌≤◌, ◌⊎◌, ◌++◌, List, [], ℕ, Some, true, false};
ghost use Rattle.f2_bytes.specs.Bytes.{Image};
ghost use Rattle.f2_disk.specs.Disk.{Reads, Goes, Rose};
ghost use Rattle.f2_disk.specs.Sink.{Puts};
ghost use Rattle.f2_super.specs.NewCopy.{HasProfile};
ghost use Rattle.f2_mkfs.specs.Formatting.{size_answer, format_answer};
ghost use Rattle.f2_top.specs.Answers.{AnswersOrEnds, IsIdle, IsLastAlone};
ghost use Rattle.f2_top.specs.Disks.{IsSettled, OnImage, TellsOne};
ghost use Rattle.f2_top.specs.Run.{new_answer, new_lines, FitsSizes, LeavesNew};
ghost use Rattle.f2_top.specs.Text.{Appends, IsFront, size_line};

use crate::report::put_pair;
use crate::{Answer, Refusal};
use f2_disk::{Disk, Sink, SinkFault};
use f2_mkfs::{FormatRefusal, Options, format};
use f2_super::Geometry;
use std::alloc::Global;

// The answer where no image is made.
fn refused(refusal: FormatRefusal) -> Answer
    ensures { result ≡ new_answer (Err refusal) }
{
    match refusal {
        FormatRefusal::DeviceTooSmall { blocks, held } => {
            Answer::Refused(Refusal::DeviceTooSmall { blocks, held })
        }
        FormatRefusal::TooLarge(blocks) => Answer::Refused(Refusal::TooLarge(blocks)),
        FormatRefusal::TooSmall { main, least } => {
            Answer::Refused(Refusal::TooSmall { main, least })
        }
        FormatRefusal::Exists => Answer::Refused(Refusal::Exists),
        FormatRefusal::DiskFault => Answer::DiskFault,
        FormatRefusal::NoMemory => Answer::NoMemory,
    }
}

// Puts the line of the image that was made.
fn put_sizes<O: Sink>(out: &mut O, geometry: &Geometry) -> Result<(), SinkFault>
    ensures { Puts (size_line geometry.now)
        (O.told out.old) (O.told out.new) (O.faults out.old) (O.faults out.new) result }
{
    put_pair(
        out,
        b"blocks ",
        geometry.blocks,
        b" main ",
        u64::from(geometry.main),
    )
}

/// Makes a new image, and puts the line of its sizes after the disk's last write.
pub fn make_image<D: Disk, O: Sink>(
    alloc: Global,
    options: &Options,
    disk: &mut D,
    out: &mut O,
) -> Answer
    requires { HasProfile options.now.features }
    // Which answer it is.
    ensures exact { OnImage (D.state disk.old) (λ image.
        AnswersOrEnds (new_answer (format_answer (D.state disk.old).size image options.now)) result) }
    ensures sink_fault { OnImage (D.state disk.old) (λ image. result ≡ Answer.SinkFault
        → new_answer (format_answer (D.state disk.old).size image options.now) ≡ Answer.Done) }
    ensures sizes { FitsSizes (size_answer (D.state disk.old).size options.now.sectors) result }
    ensures fault { result ≡ Answer.DiskFault → Rose (D.state disk.old).faults (D.state disk.new).faults }
    ensures sink { result ≡ Answer.SinkFault → Rose (O.faults out.old) (O.faults out.new) }
    ensures others { (result ≢ Answer.Usage) × (result ≢ Answer.Corrected) }

    // The line that it puts.
    ensures lines { let sizes = size_answer (D.state disk.old).size options.now.sectors in
        Appends (O.told out.old) (O.told out.new) (IsFront [] (new_lines sizes) result) }
    ensures silent { IsLastAlone false result → O.told out.new ≡ O.told out.old }

    // The image that it leaves.
    ensures image { OnImage (D.state disk.old) (λ image. result ≢ Answer.DiskFault → result ≢ Answer.NoMemory
        → let sizes = format_answer (D.state disk.old).size image options.now in
        TellsOne (D.state disk.new) (LeavesNew options.now sizes image)) }
    ensures idle { IsIdle true false result → Reads (D.state disk.old) (D.state disk.new) }
    ensures durable { IsSettled result (D.state disk.old) (D.state disk.new) }
    ensures goes { Goes (D.state disk.old) (D.state disk.new) }
    ensures sink_goes { O.faults out.old ≤ O.faults out.new }
{
    match format(alloc, disk, options) {
        Ok(geometry) => match put_sizes(out, &geometry) {
            Ok(()) => Answer::Done,
            Err(_) => Answer::SinkFault,
        },
        Err(refusal) => refused(refusal),
    }
}
