// Laws over inodes and nodes: each is the contract of a function that does nothing.
ghost use Rattle.f2_node.specs.Laws.{SlotsBeforeAttributes, SlotsBeforeNids, ReachesInode, LocatedReachesInode};

/// The address words of an inode that name blocks end before its five nids, and before the attributes that stand in it.
pub fn slots_lie_before_the_inline_attributes()
    ensures nids { SlotsBeforeNids }
    ensures attributes { SlotsBeforeAttributes }
{}

/// From each node in the tree of a file at most three steps of `parent_of` lead to the inode, so also from the node of
/// each block.
pub fn three_steps_lead_to_the_inode()
    ensures nodes { ReachesInode }
    ensures blocks { LocatedReachesInode }
{}
