// The law of mending: the contract of a function that does nothing.
ghost use Rattle.f2_mend.specs.Laws.{MendedIsSalvage};

/// A mended image is checked, and its tree is the salvage of the image that it was mended of.
///
/// The other image has the superblock copies of this one, a checkpoint, and the files of its
/// salvage, each with its nodes, blocks and names, with nothing else in its tables. Then it meets
/// every cross-check but that on the superblock copies.
#[tactic(auto, using(crate::proofs::MendedLaw::mended_is_salvage))]
pub fn mended_is_salvage()
    ensures { MendedIsSalvage }
{}
