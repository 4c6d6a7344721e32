// Laws over the definitions: each is the contract of a function that does nothing.
ghost use Rattle.f2_bytes.specs.Laws.{CheckedIsMountable, FreeHasNoSupport, SupportKeepsTree};
ghost use Rattle.f2_bytes.specs.Moved.{MovedKeepsTree, MovedSlots};

/// A checked image can be mounted, unless its version is at the limit.
#[tactic(auto, using(crate::proofs::Mountable::checked_is_mountable))]
pub fn checked_is_mountable()
    ensures { CheckedIsMountable }
{}

/// The frame law for checked images: whoever keeps the support keeps the tree.
///
/// The support of an image is what its check and its tree depend on: the superblock copies that pass, the
/// checkpoint pack that counts, the tables in use, and in the main area the nodes, the blocks of files and the chain of
/// roll-forward, with the summaries that are needed. Another image of the same length that has the same blocks there,
/// in which the same copies pass and the same pack counts, is checked where the first is, and has the same tree.
pub fn support_keeps_tree()
    ensures { SupportKeepsTree }
{}

/// No free segment holds support: none of its 512 blocks is one that the check or the tree depends on.
#[tactic(auto, using(crate::proofs::FormatFacts::free_has_no_support))]
pub fn free_segments_hold_no_support()
    ensures { FreeHasNoSupport }
{}

/// Moving blocks keeps the tree.
///
/// In another image of the same length stands each node and each block of a file of a checked image, wherever it was
/// put in the main area, no two at one place. What names them follows: the node table, the addresses in the nodes, the
/// segment table and the summaries; an extent that covers a block that moved is zeros. The superblock copies, the logs
/// and the counts of the checkpoint are the same, and its journals and roll-forward are in order. Then the other image
/// is checked, with the same tree, and each slot of a file holds the new address of the block that it named.
pub fn moved_blocks_keep_the_tree()
    ensures tree { MovedKeepsTree }
    ensures slots { MovedSlots }
{}
