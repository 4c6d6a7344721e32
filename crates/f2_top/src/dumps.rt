// The jobs that dump what an image holds.
ghost use Rattle.std.specs.Prelude.{◌≡◌, ◌≢◌, ◌≤◌, false};
ghost use Rattle.f2_bytes.specs.Bytes.{Image};
ghost use Rattle.f2_disk.specs.Disk.{Reads, Goes, Rose};
ghost use Rattle.f2_view.specs.Mounting.{mounted};
ghost use Rattle.f2_top.specs.Answers.{AnswersOrEnds, IsLastAlone};
ghost use Rattle.f2_top.specs.Disks.{OnImage};
ghost use Rattle.f2_top.specs.Run.{dump_answer, mounted_lines};
ghost use Rattle.f2_top.specs.Text.{Appends, IsFrontOf};

use crate::mounts::refused;
use crate::{Answer, Refusal};
use f2_disk::{Disk, Sink};
use f2_dump::{DumpRefusal, What, dump};
use f2_view::mount;
use std::alloc::Global;

/// Mounts the image, and puts the lines of what is dumped.
pub fn dump_image<D: Disk, O: Sink>(alloc: Global, what: What, disk: &mut D, out: &mut O) -> Answer
    // Which answer it is.
    ensures exact { OnImage (D.state disk.old) (λ image.
        AnswersOrEnds (dump_answer what image (mounted (D.state disk.old).size image)) result) }
    ensures sink_fault { OnImage (D.state disk.old) (λ image. result ≡ Answer.SinkFault
        → dump_answer what image (mounted (D.state disk.old).size image) ≡ Answer.Done) }
    ensures fault { result ≡ Answer.DiskFault → Rose (D.state disk.old).faults (D.state disk.new).faults }
    ensures sink { result ≡ Answer.SinkFault → Rose (O.faults out.old) (O.faults out.new) }
    ensures others { (result ≢ Answer.Usage) × (result ≢ Answer.Corrected) }

    // The lines that it puts.
    ensures lines { OnImage (D.state disk.old) (λ image. let mount = mounted (D.state disk.old).size image in
        let lines = mounted_lines what image mount in
        Appends (O.told out.old) (O.told out.new) (IsFrontOf (dump_answer what image mount) lines result)) }
    // With these answers none, on every disk.
    ensures silent { IsLastAlone false result → O.told out.new ≡ O.told out.old }

    // It reads alone.
    ensures reads { Reads (D.state disk.old) (D.state disk.new) }
    ensures goes { Goes (D.state disk.old) (D.state disk.new) }
    ensures sink_goes { O.faults out.old ≤ O.faults out.new }
{
    match mount(alloc, disk) {
        Ok(mut m) => match dump(alloc, &mut m, what, disk, out) {
            Ok(()) => Answer::Done,
            Err(DumpRefusal::DiskFault) => Answer::DiskFault,
            Err(DumpRefusal::SinkFault) => Answer::SinkFault,
            Err(DumpRefusal::NoMemory) => Answer::NoMemory,
            Err(DumpRefusal::OutOfRange(number)) => Answer::Refused(Refusal::OutOfRange(number)),
            Err(DumpRefusal::NoSuchNode(ino)) => Answer::Refused(Refusal::NoSuchNode(ino)),
        },
        Err(refusal) => refused(refusal),
    }
}
