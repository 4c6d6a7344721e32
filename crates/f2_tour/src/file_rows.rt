// The rows of a file, as they are given to what is kept of the files.
ghost use Rattle.std.specs.Prelude.{◌≡◌, ◌≤◌, ◌++◌, [], suc, true, List, Some, OnOk, IsErrOf, filter_map};
ghost use Rattle.std.specs.List.{cons_option};
ghost use Rattle.f2_bytes.specs.Bytes.{Image};
ghost use Rattle.f2_bytes.specs.Tree.{read_node, is_inode};
ghost use Rattle.f2_files.specs.Files.{IsAfter, IsInside};
ghost use Rattle.f2_survey.specs.Known.{IsKnown};
ghost use Rattle.f2_survey.specs.Named.{name_row, named_rows};
ghost use Rattle.f2_survey.specs.Slots.{file_rows, Row as FormatRow};
ghost use Rattle.f2_disk.specs.Disk.{Reads, Goes, Rose};
ghost use Rattle.f2_view.specs.Mounted.{layout_in, IsMountOf};

use f2_defects::CheckRefusal;
use f2_disk::{Block, Disk};
use f2_files::{Files, Row, direct_before};
use f2_node::{addresses, has_slots};
use f2_survey::{Name, Nodes, known_node};
use f2_view::Mount;

// Gives the row in the node that a name of a file leads to, where that is a direct node, and reads it.
fn give_node<D: Disk>(
    m: &Mount,
    d: &mut D,
    nodes: &Nodes,
    files: &mut Files,
    ino: u32,
    inode: &Block,
    name: Name,
) -> Result<(), CheckRefusal>
    requires lies { (layout_in m.now).blocks ≤ (D.state d.old).size }
    ensures row { OnOk result ((image : Image) (rows : List FormatRow) → (D.state d.old).told ≡ Some image → IsMountOf image m.now → IsKnown image nodes.now
        → IsInside image ino rows files.old → IsInside image ino (rows ++ cons_option (name_row image ino inode.now name) []) files.new) }
    ensures reads { Reads (D.state d.old) (D.state d.new) }
    ensures goes { Goes (D.state d.old) (D.state d.new) }
    ensures fault { IsErrOf result CheckRefusal.DiskFault → Rose (D.state d.old).faults (D.state d.new).faults }
{
    let before = match direct_before(name.offset) {
        Some(before) => before,
        None => return Ok(()),
    };
    let mut node = Block::zeros();
    if !known_node(m, d, nodes, name.nid, &mut node)? {
        return Ok(());
    }
    let first = u64::from(addresses(inode)) + 1018 * u64::from(before);
    files.row(m, d, nodes, &Row::of_node(ino, name.nid, first, &node))
}

// Gives the rows in the nodes that the names of a file lead to.
fn give_nodes<D: Disk>(
    m: &Mount,
    d: &mut D,
    nodes: &Nodes,
    files: &mut Files,
    ino: u32,
    inode: &Block,
    names: &[Name],
) -> Result<(), CheckRefusal>
    requires lies { (layout_in m.now).blocks ≤ (D.state d.old).size }
    ensures rows { OnOk result ((image : Image) (rows : List FormatRow) → (D.state d.old).told ≡ Some image → IsMountOf image m.now → IsKnown image nodes.now
        → IsInside image ino rows files.old → IsInside image ino (rows ++ filter_map (name_row image ino inode.now) names.now) files.new) }
    ensures reads { Reads (D.state d.old) (D.state d.new) }
    ensures goes { Goes (D.state d.old) (D.state d.new) }
    ensures fault { IsErrOf result CheckRefusal.DiskFault → Rose (D.state d.old).faults (D.state d.new).faults }
{
    for name in names {
        give_node(m, d, nodes, files, ino, inode, *name)?;
    }
    Ok(())
}

// Gives the rows of a file with this inode and these names.
fn give_rows<D: Disk>(
    m: &Mount,
    d: &mut D,
    nodes: &Nodes,
    files: &mut Files,
    ino: u32,
    inode: &Block,
    names: &[Name],
) -> Result<(), CheckRefusal>
    requires lies { (layout_in m.now).blocks ≤ (D.state d.old).size }
    ensures rows { OnOk result ((image : Image) → (D.state d.old).told ≡ Some image → IsMountOf image m.now → IsKnown image nodes.now
        → IsInside image ino [] files.old → IsInside image ino (named_rows image ino inode.now names.now) files.new) }
    ensures reads { Reads (D.state d.old) (D.state d.new) }
    ensures goes { Goes (D.state d.old) (D.state d.new) }
    ensures fault { IsErrOf result CheckRefusal.DiskFault → Rose (D.state d.old).faults (D.state d.new).faults }
{
    if !has_slots(inode) {
        return Ok(());
    }
    files.row(m, d, nodes, &Row::of_inode(ino, inode))?;
    give_nodes(m, d, nodes, files, ino, inode, names)
}

/// Gives the file of this number, which has this inode and these names.
pub fn give_file<D: Disk>(
    m: &Mount,
    d: &mut D,
    nodes: &Nodes,
    files: &mut Files,
    ino: u32,
    inode: &Block,
    names: &[Name],
) -> Result<(), CheckRefusal>
    requires lies { (layout_in m.now).blocks ≤ (D.state d.old).size }
    ensures file { OnOk result ((image : Image) → (D.state d.old).told ≡ Some image → IsMountOf image m.now → IsKnown image nodes.now
        → is_inode image ino ≡ true → read_node image ino ≡ Some inode.now → named_rows image ino inode.now names.now ≡ file_rows image ino
        → IsAfter image ino files.old → IsAfter image (suc ino) files.new) }
    ensures reads { Reads (D.state d.old) (D.state d.new) }
    ensures goes { Goes (D.state d.old) (D.state d.new) }
    ensures fault { IsErrOf result CheckRefusal.DiskFault → Rose (D.state d.old).faults (D.state d.new).faults }
{
    files.begin(nodes, ino, inode)?;
    give_rows(m, d, nodes, files, ino, inode, names)?;
    files.end(nodes, ino)?;
    Ok(())
}
