// The survey of an image's nodes: each node is read once.
ghost use Rattle.std.specs.Prelude.{◌≡◌, ◌^◌, ◌<◌, ◌≤◌, length, map, Some, IfOk, IsErrOf};
ghost use Rattle.f2_bytes.specs.Bytes.{Image, numbers_below};
ghost use Rattle.f2_bytes.specs.NodeAddressTable.{nid_limit, image_nat_entry};
ghost use Rattle.f2_bytes.specs.Check.{nids};
ghost use Rattle.f2_survey.specs.Seen.{Reaches, HasSeen, IsSurvey};
ghost use Rattle.f2_disk.specs.Disk.{Reads, Goes, Rose};
ghost use Rattle.f2_sum.specs.Records.{nat_entry};
ghost use Rattle.f2_view.specs.Mounted.{layout_in, IsMountOf};

use crate::node_counts::Tally;
use crate::node_words::read_said;
use crate::nodes::{Nodes, live};
use crate::rule_3_nodes::NodeDefects;
use crate::survey_so_far::{Seen, Survey};
use f2_defects::CheckRefusal;
use f2_disk::{Block, Disk};
use f2_sum::NatEntry;
use f2_view::Mount;
use std::alloc::Global;

// Looks at each number once, in ascending order. The numbers have these entries.
fn walk<D: Disk>(
    alloc: Global,
    m: &Mount,
    d: &mut D,
    entries: &[NatEntry],
) -> Result<Seen, CheckRefusal>
    requires lies { (layout_in m.now).blocks ≤ (D.state d.old).size }
    requires entries { length entries.now ≡ nid_limit (layout_in m.now) }
    ensures reaches { IfOk result (Reaches (length entries.now)) }
    ensures few { IfOk result (λ _. length entries.now < 2 ^ 32) }
    ensures seen { IfOk result (λ seen. (image : Image) → (D.state d.old).told ≡ Some image → IsMountOf image m.now
        → map nat_entry entries.now ≡ map (image_nat_entry image) (numbers_below (nids image)) → HasSeen image (nids image) seen) }
    ensures reads { Reads (D.state d.old) (D.state d.new) }
    ensures goes { Goes (D.state d.old) (D.state d.new) }
    ensures fault { IsErrOf result CheckRefusal.DiskFault → Rose (D.state d.old).faults (D.state d.new).faults }
{
    let main = m.layout().main;
    let mut block = Block::zeros();
    let mut seen = Seen {
        offsets: Vec::new(alloc),
        kinds: Vec::new(alloc),
        defects: NodeDefects::new(alloc),
    };
    for nid in 0..m.nid_limit() {
        let entry = live(nid, entries[nid as usize]);
        let said = read_said(m, d, entry, &mut block)?;
        seen.take(nid, entry, said, main)?;
    }
    Ok(seen)
}

/// Looks at each number of the node address table once, and reads each node once that stands in the main area.
pub fn survey<D: Disk>(alloc: Global, m: &mut Mount, d: &mut D) -> Result<Survey, CheckRefusal>
    requires lies { (layout_in m.old).blocks ≤ (D.state d.old).size }
    ensures survey { IfOk result (λ s. (image : Image) → (D.state d.old).told ≡ Some image → IsMountOf image m.old → IsSurvey image s) }
    ensures mount { m.new ≡ m.old }
    ensures reads { Reads (D.state d.old) (D.state d.new) }
    ensures goes { Goes (D.state d.old) (D.state d.new) }
    ensures fault { IsErrOf result CheckRefusal.DiskFault → Rose (D.state d.old).faults (D.state d.new).faults }
{
    let entries = m.nat_entries(d)?;
    let Seen {
        offsets,
        kinds,
        defects,
    } = walk(alloc, m, d, &entries)?;
    let nodes = Nodes::of(entries, offsets, kinds);
    let tally = Tally::of(alloc, &nodes)?;
    Ok(Survey {
        nodes,
        defects,
        tally,
    })
}
