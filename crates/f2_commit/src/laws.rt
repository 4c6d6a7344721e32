// Laws over batches of moves: each is the contract of a function that does nothing.
ghost use Rattle.f2_commit.specs.Laws.{MovesFollowEachOther, FreeSegmentsSpareTheirSummaries};

/// Moves follow each other.
///
/// An image has followed moves of another one where each node and each block of a file stands where they brought it, one
/// after the other, and all that names it says so: the entries of the node address table, with their versions and inodes,
/// the words of nodes, and the types of segments. What has followed some moves, and then more of them, has followed all.
#[tactic(auto, using(crate::proofs::FollowLaw::moves_follow_each_other))]
pub fn moves_follow_each_other()
    ensures { MovesFollowEachOther }
{}

/// No free segment of a checked image has a summary block that the check or the tree depends on.
#[tactic(auto, using(crate::proofs::ShiftSpare::free_spares))]
pub fn free_segments_spare_their_summaries()
    ensures { FreeSegmentsSpareTheirSummaries }
{}
