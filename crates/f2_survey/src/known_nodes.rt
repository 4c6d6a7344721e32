// Nodes that are read by what is known of them.
ghost use Rattle.std.specs.Prelude.{◌≡◌, ◌≤◌, if◌then◌else◌, Some, None, IfOk, IsErrOf};
ghost use Rattle.f2_bytes.specs.Bytes.{Image};
ghost use Rattle.f2_bytes.specs.Tree.{read_node};
ghost use Rattle.f2_survey.specs.Known.{IsKnown};
ghost use Rattle.f2_disk.specs.Disk.{Reads, Goes, Rose};
ghost use Rattle.f2_view.specs.Mounted.{layout_in, IsMountOf};

use crate::nodes::Nodes;
use f2_defects::CheckRefusal;
use f2_disk::{Block, Disk};
use f2_view::Mount;

/// Reads the node of this number, where the node address table has one in the main area: true exactly then. No block of
/// the table is read again. Where it is false, and after a refusal, the bytes are any.
pub fn known_node<D: Disk>(
    m: &Mount,
    d: &mut D,
    nodes: &Nodes,
    nid: u32,
    into: &mut Block,
) -> Result<bool, CheckRefusal>
    requires lies { (layout_in m.now).blocks ≤ (D.state d.old).size }
    ensures node { IfOk result (λ found. (image : Image) → (D.state d.old).told ≡ Some image → IsMountOf image m.now → IsKnown image nodes.now
        → read_node image nid ≡ (if found then Some into.new else None)) }
    ensures reads { Reads (D.state d.old) (D.state d.new) }
    ensures goes { Goes (D.state d.old) (D.state d.new) }
    ensures fault { IsErrOf result CheckRefusal.DiskFault → Rose (D.state d.old).faults (D.state d.new).faults }
{
    let entry = match nodes.entry(nid) {
        Some(entry) => entry,
        None => return Ok(false),
    };
    let found = m.main_block(d, entry.addr, into)?;
    Ok(found)
}
