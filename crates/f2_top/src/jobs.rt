// The jobs.
use f2_dump::What;
use f2_mkfs::Label;

/// What a run is to do, as words name it.
#[derive(Clone, Copy)]
pub enum Job {
    /// `fsck`: look whether the image meets the rules.
    Check,
    /// `fsck -t`: the same, and put a line for each name of an image that does.
    Tree,
    /// `fsck --super`: rewrite the superblock copy that is bad or disagrees.
    Super,
    /// `dump ..`: put what the image holds as lines.
    Dump(What),
    /// `defrag ..`: empty a range of block addresses.
    Defrag {
        /// Its first address; the first of the main area where none is given, or one before that.
        start: Option<u64>,
        /// How many addresses it has; 512 where none is given, or 0.
        blocks: Option<u64>,
        /// The address from whose segment on free segments are taken; the end of the range where none is given, or with
        /// `down` the address before it.
        target: Option<u64>,
        /// They are taken downward.
        down: bool,
    },
    /// `mkfs ..`: make a new image.
    Mkfs {
        /// Its length in sectors of 512 bytes; the whole disk where none is given.
        sectors: Option<u64>,
        /// Its volume name; empty where none is given.
        label: Label,
        /// The uuid of the run where none is given.
        uuid: Option<[u8; 16]>,
        /// The time of its files in seconds; the moment of the run where none is given.
        second: Option<u64>,
        /// Its feature bits: 0x200 for `lost+found`, 0x800 for superblock checksums.
        features: u32,
        /// Make it also where the disk seems to hold an image.
        force: bool,
    },
}

/// Why words give no job.
#[derive(Clone, Copy, Debug, PartialEq, Eq)]
pub enum WordsRefusal {
    /// They name none.
    Usage,
    /// No memory is left.
    NoMemory,
}
