// The line of a name in a tree.
ghost use Rattle.std.specs.Prelude.{◌≡◌, ◌≤◌, ◌+◌, ◌*◌, ◌++◌, length, OnOk};
ghost use Rattle.f2_dump.specs.Dump.{Gathers, Sinks, OnlySink};
ghost use Rattle.f2_dump.specs.Trees.{printed_byte, printed_name, indent, line_end, tree_line};

use crate::DumpRefusal;
use crate::gathering::{PIECE, keep_room};
use crate::hex::push_hex;
use f2_dent::Name;
use f2_disk::Sink;
use std::alloc::AllocError;

// The bytes that leave room for a name and the end of its line: four for each byte of a name, and two.
pub(crate) const LINE: usize = 1022;

// Appends a byte of a name as it is printed.
fn push_byte(text: &mut Vec<u8>, c: u8) -> Result<(), AllocError>
    ensures byte { OnOk result (text.new.items ≡ text.old.items ++ printed_byte c) }
    ensures size { length text.new.items ≤ length text.old.items + 4 }
{
    if 0x21 <= c && c <= 0x7E && c != b'\\' {
        return text.extend_from_slice(&[c]);
    }
    text.extend_from_slice(b"\\x")?;
    push_hex(text, &[c])
}

// Appends a name as it is printed.
fn push_name(text: &mut Vec<u8>, name: &[u8]) -> Result<(), AllocError>
    ensures name { OnOk result (text.new.items ≡ text.old.items ++ printed_name name.now) }
    ensures size { length text.new.items ≤ length text.old.items + 4 * length name.now }
{
    for c in name {
        push_byte(text, *c)?;
    }
    Ok(())
}

// Appends a name and the end of its line.
fn push_end(text: &mut Vec<u8>, directory: bool, name: &Name) -> Result<(), AllocError>
    ensures line { OnOk result (text.new.items ≡ text.old.items ++ (printed_name name.now ++ line_end directory)) }
    ensures size { length text.new.items ≤ length text.old.items + LINE }
{
    push_name(text, name.bytes())?;
    if directory {
        text.extend_from_slice(b"/\n")
    } else {
        text.extend_from_slice(b"\n")
    }
}

// Gathers two spaces for each level.
fn gather_indent<O: Sink>(text: &mut Vec<u8>, level: u32, o: &mut O) -> Result<(), DumpRefusal>
    requires room { length text.old.items + LINE ≤ PIECE }
    ensures lines { Gathers (indent level) text.old.items text.new.items (O.told o.old) (O.told o.new) result }
    ensures room { length text.new.items + LINE ≤ PIECE }
    ensures only { OnlySink result }
    ensures sink { Sinks (O.faults o.old) (O.faults o.new) result }
{
    for _ in 0..level {
        let pushed = text.extend_from_slice(b"  ");
        keep_room(text, o, pushed, LINE)?;
    }
    Ok(())
}

// Gathers the line of a name.
pub(crate) fn gather_line<O: Sink>(
    text: &mut Vec<u8>,
    level: u32,
    directory: bool,
    name: &Name,
    o: &mut O,
) -> Result<(), DumpRefusal>
    requires room { length text.old.items + LINE ≤ PIECE }
    ensures lines { Gathers (tree_line level directory name.now) text.old.items text.new.items (O.told o.old) (O.told o.new) result }
    ensures room { length text.new.items + LINE ≤ PIECE }
    ensures only { OnlySink result }
    ensures sink { Sinks (O.faults o.old) (O.faults o.new) result }
{
    gather_indent(text, level, o)?;
    let pushed = push_end(text, directory, name);
    keep_room(text, o, pushed, LINE)
}
