// What a mount says of the image and of its directories.
ghost use Rattle.std.specs.Prelude.{◌≤◌, IfOk};
ghost use Rattle.f2_disk.specs.Disk.{Goes, Reads};
ghost use Rattle.f2_view.specs.Mounted.{layout_in};

use crate::words::{of_memory, small};
use f2_case_disk::{CallError, CaseDisk};
use f2_disk::Disk;
use f2_view::{Mount, MountRefusal, ViewRefusal, mount};
use std::alloc::Global;

// Mounts the image.
fn mounted<D: Disk>(alloc: Global, d: &mut D) -> Result<Mount, CallError>
    ensures lies { IfOk result (λ m. (layout_in m).blocks ≤ (D.state d.new).size) }
    ensures reads { Reads (D.state d.old) (D.state d.new) }
    ensures goes { Goes (D.state d.old) (D.state d.new) }
{
    match mount(alloc, d) {
        Ok(m) => Ok(m),
        Err(MountRefusal::DiskFault) => Err(CallError::DiskFault),
        Err(MountRefusal::NoMemory) => Err(CallError::NoMemory),
        Err(_) => Err(CallError::Words),
    }
}

fn of_view(refusal: ViewRefusal) -> CallError {
    match refusal {
        ViewRefusal::DiskFault => CallError::DiskFault,
        ViewRefusal::NoMemory => CallError::NoMemory,
    }
}

// How many blocks, main segments and nids there are.
pub(crate) fn put_limits(
    alloc: Global,
    disk: &mut CaseDisk,
    text: &mut String,
) -> Result<(), CallError> {
    let m = mounted(alloc, disk)?;
    let l = m.layout();
    writeln!(
        text,
        "blocks {} segments {} nids {}",
        l.blocks,
        l.segments,
        m.nid_limit()
    )
    .map_err(of_memory)
}

// Puts the bytes of a name; those that aren't printed as `\xHH`.
fn put_name(name: &[u8], text: &mut String) -> Result<(), CallError> {
    for byte in name {
        match *byte {
            0x20..=0x7E => text.push(char::from(*byte)),
            other => write!(text, "\\x{other:02x}"),
        }
        .map_err(of_memory)?;
    }
    text.push('\n').map_err(of_memory)
}

// The entries of a directory, in ascending order of their places.
pub(crate) fn put_names(
    alloc: Global,
    disk: &mut CaseDisk,
    words: &[String],
    text: &mut String,
) -> Result<(), CallError> {
    let [ino] = words else {
        return Err(CallError::Words);
    };
    let ino = small(ino.as_str())?;
    let mut m = mounted(alloc, disk)?;
    for entry in m.entries(disk, ino).map_err(of_view)? {
        write!(
            text,
            "{} {} {} {} ",
            entry.place, entry.hash, entry.ino, entry.kind
        )
        .map_err(of_memory)?;
        put_name(entry.name.bytes(), text)?;
    }
    Ok(())
}
