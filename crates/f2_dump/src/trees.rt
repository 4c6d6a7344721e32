// The dump of the tree, which is walked with a list of the names whose lines are still to be put.
ghost use Rattle.std.specs.Prelude.{◌≡◌, ◌≤◌, ◌<◌, ◌+◌, ◌*◌, ◌^◌, ◌++◌, ℕ, List, suc, map, reverse, Some, IfOk, OnOk, IsErrOf, length};
ghost use Rattle.f2_bytes.specs.Bytes.{Image};
ghost use Rattle.f2_disk.specs.Disk.{Reads, Goes, Rose};
ghost use Rattle.f2_view.specs.Directories.{item_of};
ghost use Rattle.f2_view.specs.Mounted.{IsMountOf, layout_in};
ghost use Rattle.f2_dump.specs.Dump.{Dumps, Gathers, Sinks, IsInside, OnlyReads};
ghost use Rattle.f2_dump.specs.Stacks.{pending, stack_lines, stack_weight, weight};
ghost use Rattle.f2_dump.specs.Trees.{tree_line, is_directory_of, lines_within};
ghost use Rattle.f2_dump.specs.Trees.{tree_lines as lines_of_tree};

use crate::DumpRefusal;
use crate::directories::names_in;
use crate::gathering::{PIECE, finish};
use crate::pending::Pending;
use crate::printing::{LINE, gather_line};
use f2_disk::{Disk, Sink};
use f2_view::{Mount, Named};
use std::alloc::{AllocError, Global};

// The number of the root.
const ROOT: u32 = 3;

// Puts the names of a directory, which stand at this level, on the stack, the first one last. None where no level is left.
fn push_names(
    stack: &mut Vec<Pending>,
    names: &[Named],
    level: u32,
    levels: u32,
) -> Result<(), AllocError>
    requires few { level + levels < 2 ^ 32 }
    ensures names { OnOk result (stack.new.items ≡ stack.old.items ++ reverse (pending level levels (map item_of names.now))) }
{
    if levels == 0 {
        return Ok(());
    }
    let left = levels - 1;
    let mut k = names.len();
    while k > 0 {
        k -= 1;
        let n = &names[k];
        stack.push(Pending {
            level,
            left,
            ino: n.ino,
            name: n.name,
        })?;
    }
    Ok(())
}

// Reads the names in the directory with this number and puts them on the stack. Whether it is a directory's.
fn push_directory<D: Disk>(
    stack: &mut Vec<Pending>,
    m: &mut Mount,
    ino: u32,
    level: u32,
    levels: u32,
    d: &mut D,
) -> Result<bool, DumpRefusal>
    requires few { level + levels < 2 ^ 32 }
    requires lies { (layout_in m.old).blocks ≤ (D.state d.old).size }
    ensures directory { IfOk result (λ directory. (image : Image) → (D.state d.old).told ≡ Some image → IsMountOf image m.old
        → directory ≡ is_directory_of image ino) }
    ensures lines { OnOk result ((image : Image) → (D.state d.old).told ≡ Some image → IsMountOf image m.old
        → stack_lines image stack.new.items ≡ lines_within levels image level ino ++ stack_lines image stack.old.items) }
    ensures light { OnOk result (stack_weight stack.new.items < weight levels + stack_weight stack.old.items) }
    ensures only { OnlyReads result }
    ensures mount { m.new ≡ m.old }
    ensures reads { Reads (D.state d.old) (D.state d.new) }
    ensures goes { Goes (D.state d.old) (D.state d.new) }
    ensures fault { IsErrOf result DumpRefusal.DiskFault → Rose (D.state d.old).faults (D.state d.new).faults }
{
    match names_in(m, ino, d)? {
        Some(names) => {
            push_names(stack, &names, level, levels)?;
            Ok(true)
        }
        None => Ok(false),
    }
}

// Gathers the line of a name, and puts the names in the directory that it names on the stack.
fn gather_name<D: Disk, O: Sink>(
    text: &mut Vec<u8>,
    stack: &mut Vec<Pending>,
    p: &Pending,
    m: &mut Mount,
    d: &mut D,
    o: &mut O,
) -> Result<(), DumpRefusal>
    requires lies { (layout_in m.old).blocks ≤ (D.state d.old).size }
    requires room { length text.old.items + LINE ≤ PIECE }
    ensures lines { (image : Image) → (D.state d.old).told ≡ Some image → IsMountOf image m.old
        → Gathers (tree_line p.now.level (is_directory_of image p.now.ino) p.now.name) text.old.items text.new.items (O.told o.old) (O.told o.new) result }
    ensures rest { OnOk result ((image : Image) → (D.state d.old).told ≡ Some image → IsMountOf image m.old
        → stack_lines image stack.new.items ≡ lines_within p.now.left image (suc p.now.level) p.now.ino ++ stack_lines image stack.old.items) }
    ensures light { OnOk result (stack_weight stack.new.items < weight p.now.left + stack_weight stack.old.items) }
    ensures room { length text.new.items + LINE ≤ PIECE }
    ensures inside { IsInside result }
    ensures sink { Sinks (O.faults o.old) (O.faults o.new) result }
    ensures mount { m.new ≡ m.old }
    ensures reads { Reads (D.state d.old) (D.state d.new) }
    ensures goes { Goes (D.state d.old) (D.state d.new) }
    ensures fault { IsErrOf result DumpRefusal.DiskFault → Rose (D.state d.old).faults (D.state d.new).faults }
{
    let directory = push_directory(stack, m, p.ino, p.level + 1, p.left, d)?;
    gather_line(text, p.level, directory, &p.name, o)
}

// Gathers the lines of the names on the stack and of those below them.
fn gather_stack<D: Disk, O: Sink>(
    text: &mut Vec<u8>,
    stack: &mut Vec<Pending>,
    m: &mut Mount,
    d: &mut D,
    o: &mut O,
) -> Result<(), DumpRefusal>
    requires lies { (layout_in m.old).blocks ≤ (D.state d.old).size }
    requires room { length text.old.items + LINE ≤ PIECE }
    ensures lines { (image : Image) → (D.state d.old).told ≡ Some image → IsMountOf image m.old
        → Gathers (stack_lines image stack.old.items) text.old.items text.new.items (O.told o.old) (O.told o.new) result }
    ensures room { length text.new.items + LINE ≤ PIECE }
    ensures inside { IsInside result }
    ensures sink { Sinks (O.faults o.old) (O.faults o.new) result }
    ensures mount { m.new ≡ m.old }
    ensures reads { Reads (D.state d.old) (D.state d.new) }
    ensures goes { Goes (D.state d.old) (D.state d.new) }
    ensures fault { IsErrOf result DumpRefusal.DiskFault → Rose (D.state d.old).faults (D.state d.new).faults }
{
    while let Some(p) = stack.pop() {
        gather_name(text, stack, &p, m, d, o)?;
    }
    Ok(())
}

// Gathers the lines of the tree.
fn gather_tree<D: Disk, O: Sink>(
    alloc: Global,
    text: &mut Vec<u8>,
    m: &mut Mount,
    d: &mut D,
    o: &mut O,
) -> Result<(), DumpRefusal>
    requires lies { (layout_in m.old).blocks ≤ (D.state d.old).size }
    requires room { length text.old.items + LINE ≤ PIECE }
    ensures lines { (image : Image) → (D.state d.old).told ≡ Some image → IsMountOf image m.old
        → Gathers (lines_of_tree image) text.old.items text.new.items (O.told o.old) (O.told o.new) result }
    ensures room { length text.new.items + LINE ≤ PIECE }
    ensures inside { IsInside result }
    ensures sink { Sinks (O.faults o.old) (O.faults o.new) result }
    ensures mount { m.new ≡ m.old }
    ensures reads { Reads (D.state d.old) (D.state d.new) }
    ensures goes { Goes (D.state d.old) (D.state d.new) }
    ensures fault { IsErrOf result DumpRefusal.DiskFault → Rose (D.state d.old).faults (D.state d.new).faults }
{
    let levels = m.nid_limit();
    let mut stack = Vec::new(alloc);
    push_directory(&mut stack, m, ROOT, 0, levels, d)?;
    gather_stack(text, &mut stack, m, d, o)
}

/// Puts the lines of the tree, in pieces of at most 64 KiB: one for each name, the names of a directory below its own and
/// in the order of their bytes. It writes nothing to the disk, and refuses no number.
pub fn dump_tree<D: Disk, O: Sink>(
    alloc: Global,
    m: &mut Mount,
    d: &mut D,
    o: &mut O,
) -> Result<(), DumpRefusal>
    requires lies { (layout_in m.old).blocks ≤ (D.state d.old).size }
    ensures lines { (image : Image) → (D.state d.old).told ≡ Some image → IsMountOf image m.old
        → Dumps (lines_of_tree image) (O.told o.old) (O.told o.new) result }
    ensures inside { IsInside result }
    ensures sink { Sinks (O.faults o.old) (O.faults o.new) result }
    ensures mount { m.new ≡ m.old }
    ensures reads { Reads (D.state d.old) (D.state d.new) }
    ensures goes { Goes (D.state d.old) (D.state d.new) }
    ensures fault { IsErrOf result DumpRefusal.DiskFault → Rose (D.state d.old).faults (D.state d.new).faults }
{
    let mut text = Vec::with_capacity(alloc, PIECE)?;
    let answer = gather_tree(alloc, &mut text, m, d, o);
    finish(&text, o, answer)
}
