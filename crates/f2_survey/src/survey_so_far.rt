// What a survey of the nodes sees.
ghost use Rattle.std.specs.Prelude.{◌≡◌, ◌+◌, option_map, OnOk};
ghost use Rattle.f2_bytes.specs.Bytes.{Image};
ghost use Rattle.f2_bytes.specs.NodeAddressTable.{nat};
ghost use Rattle.f2_bytes.specs.Superblock.{layout};
ghost use Rattle.f2_survey.specs.Said.{said_at};
ghost use Rattle.f2_survey.specs.Seen.{Reaches, HasSeen};
ghost use Rattle.f2_survey.specs.Survey.{IsNumbered};
ghost use Rattle.f2_sum.specs.Records.{nat_entry};

use crate::node_counts::Tally;
use crate::node_words::{Said, kind_said, offset_said, said_by_inode};
use crate::nodes::Nodes;
use crate::rule_3_nodes::NodeDefects;
use f2_sum::NatEntry;
use std::alloc::AllocError;

/// What is kept of the nodes, the defects of parts 1 to 5 of rule 3, and how many nodes there are.
#[derive(Drop)]
pub struct Survey {
    pub nodes: Nodes,
    pub defects: NodeDefects,
    pub tally: Tally,
}

/// What was seen of the numbers so far.
#[derive(Drop)]
pub struct Seen {
    pub offsets: Vec<u32>,
    pub kinds: Vec<u8>,
    pub defects: NodeDefects,
}

impl Seen {
    /// Takes one number more, which has this entry if it is that of a node, and what the node says if it stands in the main
    /// area, which begins at `main`.
    pub fn take(
        &mut self,
        nid: u32,
        entry: Option<NatEntry>,
        said: Option<Said>,
        main: u32,
    ) -> Result<(), AllocError>
        requires { IsNumbered self.old.defects }
        ensures numbered { IsNumbered self.new.defects }
        ensures reaches { OnOk result (Reaches nid self.old → Reaches (nid + 1) self.new) }
        ensures seen { OnOk result ((image : Image) → option_map nat_entry entry ≡ nat image nid → said ≡ said_at image nid → main ≡ (layout image).main
            → HasSeen image nid self.old → HasSeen image (nid + 1) self.new) }
    {
        self.defects.compare(nid, entry, said, main)?;
        self.offsets.push(offset_said(said))?;
        let inode = said_by_inode(nid, entry, said);
        self.kinds.push(kind_said(inode))?;
        Ok(())
    }
}
