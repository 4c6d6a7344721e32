// The names in directories.
ghost use Rattle.std.specs.Prelude.{◌≡◌, ◌≤◌, Some, not, map, filter, IfOk, OnOk, IsErrOf};
ghost use Rattle.std.specs.Option.{option_map};
ghost use Rattle.f2_bytes.specs.Bytes.{Image};
ghost use Rattle.f2_bytes.specs.Names.{is_dots as are_dots};
ghost use Rattle.f2_disk.specs.Disk.{Reads, Goes, Rose};
ghost use Rattle.f2_view.specs.Directories.{item_of};
ghost use Rattle.f2_view.specs.Mounted.{IsMountOf, layout_in};
ghost use Rattle.f2_dump.specs.Dump.{OnlyReads};
ghost use Rattle.f2_dump.specs.Orders.{in_order};
ghost use Rattle.f2_dump.specs.Stacks.{Lists};
ghost use Rattle.f2_dump.specs.Trees.{is_before};

use crate::DumpRefusal;
use crate::inodes::read_inode;
use f2_disk::{Block, Disk};
use f2_node::inode_field;
use f2_view::{Mount, Named};
use std::alloc::AllocError;

// Whether the name is `.` or `..`.
fn is_dots(name: &[u8]) -> bool
    ensures { result ≡ are_dots name.now }
{
    name == b".".as_slice() || name == b"..".as_slice()
}

// Drops the names `.` and `..`.
fn drop_dots(names: &mut Vec<Named>)
    ensures { map item_of names.new.items ≡ filter (λ item. not (are_dots item.name)) (map item_of names.old.items) }
{
    names.retain(|n| !is_dots(n.name.bytes()));
}

// Puts names in the order of their bytes.
fn put_in_order(names: &mut Vec<Named>) -> Result<(), AllocError>
    ensures { OnOk result (map item_of names.new.items ≡ in_order is_before (map item_of names.old.items)) }
{
    names.sort_by(|x, y| x.name.bytes().cmp(&y.name.bytes()))
}

// The names in the directory with this number, in the order of their bytes. None where it is no directory's.
pub(crate) fn names_in<D: Disk>(
    m: &mut Mount,
    ino: u32,
    d: &mut D,
) -> Result<Option<Vec<Named>>, DumpRefusal>
    requires lies { (layout_in m.old).blocks ≤ (D.state d.old).size }
    ensures names { IfOk result (λ names. (image : Image) → (D.state d.old).told ≡ Some image → IsMountOf image m.old
        → Lists image ino (option_map (λ v. v.items) names)) }
    ensures only { OnlyReads result }
    ensures mount { m.new ≡ m.old }
    ensures reads { Reads (D.state d.old) (D.state d.new) }
    ensures goes { Goes (D.state d.old) (D.state d.new) }
    ensures fault { IsErrOf result DumpRefusal.DiskFault → Rose (D.state d.old).faults (D.state d.new).faults }
{
    let mut inode = Block::zeros();
    if !read_inode(m, ino, d, &mut inode)? {
        return Ok(None);
    }
    if inode_field(&inode, 0) / 4096 != 4 {
        return Ok(None);
    }
    let mut names = m.entries(d, ino)?;
    drop_dots(&mut names);
    put_in_order(&mut names)?;
    Ok(Some(names))
}
