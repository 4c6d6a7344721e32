// What is dumped of a mounted image.
ghost use Rattle.std.specs.Prelude.{◌≡◌, ◌≤◌, ◌<◌, Some, IfOk, IsErrOf, length};
ghost use Rattle.f2_bytes.specs.Bytes.{Image, block_at};
ghost use Rattle.f2_bytes.specs.Checkpoint.{checkpoint_rows};
ghost use Rattle.f2_disk.specs.Disk.{Reads, Goes, Rose};
ghost use Rattle.f2_view.specs.Mounted.{IsMountOf, layout_in};
ghost use Rattle.f2_dump.specs.Fields.{field_lines, checkpoint_names};
ghost use Rattle.f2_dump.specs.Text.{dump_lines, block_lines, outside as is_outside, missing as is_missing};
ghost use Rattle.f2_dump.specs.Dump.{Dumps, Refuses, Lacks, Sinks, OnlySink, IsInside, reading_refusal};
ghost use Rattle.f2_dump.specs.declared.dumping.DumpRefusal.TheVariants.{DiskFault as Faulted, NoMemory as MemoryShort};

use crate::contents::dump_contents;
use crate::gathering::{PIECE, put_text};
use crate::hex::push_rows;
use crate::inodes::dump_inode;
use crate::lines::push_fields;
use crate::names::CHECKPOINT_NAMES;
use crate::ranges::{end_of, outside};
use crate::summaries::dump_summaries;
use crate::tables::{dump_nodes, dump_segments};
use f2_bytes::CHECKPOINT;
use f2_disk::{Block, Disk, DiskFault, Sink};
use f2_view::{Mount, ViewRefusal};
use std::alloc::{AllocError, Global};
use thiserror::Error;

/// What is dumped.
#[derive(Clone, Copy, Debug, PartialEq, Eq)]
pub enum What {
    /// The fields of the checkpoint that counts, a line each.
    Cp,
    /// The nodes among the nids of a range, a line each: from the first up to the last, or up to the greatest one.
    Nat(u64, Option<u64>),
    /// The entries of the main segments of a range, likewise.
    Sit(u64, Option<u64>),
    /// The bytes of the block at this address.
    Raw(u64),
    /// The summaries of the blocks of the main segments of a range.
    Ssa(u64, Option<u64>),
    /// The fields of the inode with this number, and the addresses of the blocks that it names.
    Inode(u32),
    /// The bytes of the regular file or symbolic link with this number.
    Cat(u32),
}

/// Why a dump ended early.
#[derive(Clone, Copy, Debug, PartialEq, Eq, Error)]
pub enum DumpRefusal {
    /// A call of the disk failed.
    #[error("a call of the disk failed")]
    DiskFault,
    /// A put of the sink failed.
    #[error("a put of the sink failed")]
    SinkFault,
    /// No memory is left.
    #[error("no memory is left")]
    NoMemory,
    /// This number lies outside of the range of what is dumped: nothing was put.
    #[error("{0} is out of range")]
    OutOfRange(u64),
    /// There is no inode of this number, or none with bytes that can be dumped: nothing was put.
    #[error("there is no node {0}")]
    NoSuchNode(u32),
}

impl From<ViewRefusal> for DumpRefusal {
    ghost from_gives = { λ refusal e. e ≡ reading_refusal refusal };

    fn from(refusal: ViewRefusal) -> Self {
        match refusal {
            ViewRefusal::DiskFault => DumpRefusal::DiskFault,
            ViewRefusal::NoMemory => DumpRefusal::NoMemory,
        }
    }
}

impl From<AllocError> for DumpRefusal {
    ghost from_gives = { λ _ e. e ≡ MemoryShort };

    fn from(_: AllocError) -> Self {
        DumpRefusal::NoMemory
    }
}

impl From<DiskFault> for DumpRefusal {
    ghost from_gives = { λ _ e. e ≡ Faulted };

    fn from(_: DiskFault) -> Self {
        DumpRefusal::DiskFault
    }
}

// The lines of the checkpoint that counts.
fn checkpoint_text(alloc: Global, m: &Mount) -> Result<Vec<u8>, AllocError>
    ensures lines { IfOk result (λ text. text.items ≡ field_lines checkpoint_names checkpoint_rows m.now.chosen.head) }
    ensures size { IfOk result (λ text. length text.items ≤ PIECE) }
{
    let mut text = Vec::new(alloc);
    let head = m.chosen().head().block();
    push_fields(&mut text, &CHECKPOINT_NAMES, &CHECKPOINT, head)?;
    Ok(text)
}

// Puts the lines of the checkpoint that counts.
fn dump_checkpoint<O: Sink>(alloc: Global, m: &Mount, o: &mut O) -> Result<(), DumpRefusal>
    ensures lines { Dumps (field_lines checkpoint_names checkpoint_rows m.now.chosen.head) (O.told o.old) (O.told o.new) result }
    ensures sink { Sinks (O.faults o.old) (O.faults o.new) result }
    ensures only { OnlySink result }
{
    match checkpoint_text(alloc, m) {
        Ok(text) => put_text(o, &text),
        Err(_) => Err(DumpRefusal::NoMemory),
    }
}

// The lines of a block.
fn block_text(alloc: Global, b: &Block) -> Result<Vec<u8>, AllocError>
    ensures lines { IfOk result (λ text. text.items ≡ block_lines b.now) }
    ensures size { IfOk result (λ text. length text.items ≤ PIECE) }
{
    let mut text = Vec::new(alloc);
    push_rows(&mut text, b.bytes())?;
    Ok(text)
}

// Puts the lines of the block at this address.
fn dump_block<D: Disk, O: Sink>(
    alloc: Global,
    address: u64,
    d: &mut D,
    o: &mut O,
) -> Result<(), DumpRefusal>
    requires { address < (D.state d.old).size }
    ensures lines { (image : Image) → (D.state d.old).told ≡ Some image
        → Dumps (block_lines (block_at image address)) (O.told o.old) (O.told o.new) result }
    ensures inside { IsInside result }
    ensures sink { Sinks (O.faults o.old) (O.faults o.new) result }
    ensures reads { Reads (D.state d.old) (D.state d.new) }
    ensures goes { Goes (D.state d.old) (D.state d.new) }
    ensures fault { IsErrOf result DumpRefusal.DiskFault → Rose (D.state d.old).faults (D.state d.new).faults }
{
    let mut block = Block::zeros();
    d.read(address, &mut block)?;
    let text = block_text(alloc, &block)?;
    put_text(o, &text)
}

/// Puts the lines of what is dumped, in pieces of at most 64 KiB. It writes nothing to the disk.
///
/// `OutOfRange` names the number that lies outside: of a range the first one where it is at or past the limit or above
/// the last, else the last one where it is at or past the limit.
pub fn dump<D: Disk, O: Sink>(
    alloc: Global,
    m: &mut Mount,
    what: What,
    d: &mut D,
    o: &mut O,
) -> Result<(), DumpRefusal>
    requires lies { (layout_in m.old).blocks ≤ (D.state d.old).size }
    ensures lines { (image : Image) → (D.state d.old).told ≡ Some image → IsMountOf image m.old
        → Dumps (dump_lines image what) (O.told o.old) (O.told o.new) result }
    ensures missing { (image : Image) → (D.state d.old).told ≡ Some image → IsMountOf image m.old → Lacks (is_missing image what) result }
    ensures range { Refuses (is_outside (layout_in m.old) what) (O.told o.old) (O.told o.new) result }
    ensures sink { Sinks (O.faults o.old) (O.faults o.new) result }
    ensures mount { m.new ≡ m.old }
    ensures reads { Reads (D.state d.old) (D.state d.new) }
    ensures goes { Goes (D.state d.old) (D.state d.new) }
    ensures fault { IsErrOf result DumpRefusal.DiskFault → Rose (D.state d.old).faults (D.state d.new).faults }
{
    if let Some(number) = outside(&m.layout(), what) {
        return Err(DumpRefusal::OutOfRange(number));
    }
    match what {
        What::Cp => dump_checkpoint(alloc, m, o),
        What::Nat(first, last) => {
            let end = end_of(m.nid_limit(), first, last);
            dump_nodes(alloc, m, first as u32, end, d, o)
        }
        What::Sit(first, last) => {
            let end = end_of(m.layout().segments, first, last);
            dump_segments(alloc, m, first as u32, end, d, o)
        }
        What::Raw(address) => dump_block(alloc, address, d, o),
        What::Ssa(first, last) => {
            let end = end_of(m.layout().segments, first, last);
            dump_summaries(alloc, m, first as u32, end, d, o)
        }
        What::Inode(ino) => dump_inode(alloc, m, ino, d, o),
        What::Cat(ino) => dump_contents(alloc, m, ino, d, o),
    }
}
