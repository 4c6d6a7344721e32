// Laws over packs: each is the contract of a function that does nothing.
ghost use Rattle.f2_pack.specs.Laws.{HigherCounts, KeepsSummaries, ReadsItsBlocks, WrittenIsChosen, WrittenIsRead};

/// The summaries that are kept of a valid pack are those of the pack.
pub fn pack_summaries_are_kept()
    ensures { KeepsSummaries }
{}

/// What is kept of a valid pack stands in the blocks that its head counts.
pub fn pack_reads_its_blocks()
    ensures { ReadsItsBlocks }
{}

/// A valid pack counts where the other isn't valid or has a lower version.
pub fn higher_pack_counts()
    ensures { HigherCounts }
{}

/// Where the pack that counts has the blocks of a written one, it is read as the written one.
pub fn written_pack_is_read()
    ensures kept { WrittenIsRead }
    ensures chosen { WrittenIsChosen }
{}
