// What a run answers.
/// What a run answers.
#[derive(Clone, Copy, Debug, PartialEq, Eq)]
pub enum Answer {
    /// The job is done, and there was nothing to mend.
    Done,
    /// The image was mended.
    Corrected,
    /// The image fails this rule, and none before it, in `count` places.
    Defects { rule: u8, count: u64 },
    /// The moves need `need` free segments, and there are `have`. Nothing was written.
    NoSpace { need: u64, have: u64 },
    /// A call of the disk failed.
    DiskFault,
    /// A put of the sink failed.
    SinkFault,
    /// The words name no job.
    Usage,
    /// The job was refused, and nothing was written.
    Refused(Refusal),
    /// Memory ran out.
    NoMemory,
}

/// Why a job is refused: the image can't be worked on, lacks the number that the words name, or can't be made.
#[derive(Clone, Copy, Debug, PartialEq, Eq)]
pub enum Refusal {
    /// Neither superblock copy passes.
    NoSuper,
    /// The superblock has these feature bits, which the tools don't read.
    Unsupported(u32),
    /// The image would have this many blocks, more than 2^28.
    TooLarge(u64),
    /// The superblock says that there are `blocks` blocks, more than the `held` ones of the disk.
    Truncated { blocks: u64, held: u64 },
    /// Neither checkpoint pack is valid.
    NoPack,
    /// The version of the checkpoint is 2^62 or more.
    VersionLimit(u64),
    /// A journal says this many records: more than 38 of the node address table, or more than 6 of the segment table.
    BadSummary(u32),
    /// The new image would have `blocks` blocks, more than the `held` ones of the disk.
    DeviceTooSmall { blocks: u64, held: u64 },
    /// The new image would have `main` main segments, fewer than the `least` ones that there must be.
    TooSmall { main: u64, least: u64 },
    /// This number is at or past the limit of what can be dumped of the image, or is the first of a range and lies
    /// above its last.
    OutOfRange(u64),
    /// The image has no inode with this number, or its bytes are asked for and it is no regular file or symbolic link.
    NoSuchNode(u32),
    /// Block 0 or 1 has the magic number of a superblock, and the new image isn't to be made by force.
    Exists,
}

impl Answer {
    ghost use Rattle.std.specs.Prelude.{◌≡◌};
    ghost use Rattle.f2_top.specs.Answers.{status_of};

    /// The status with which the program ends.
    pub fn status(&self) -> u8
        ensures { result ≡ status_of self.now }
    {
        match self {
            Answer::Done => 0,
            Answer::Corrected => 1,
            Answer::Defects { .. } => 4,
            Answer::DiskFault => 8,
            Answer::SinkFault => 9,
            Answer::NoSpace { .. } => 10,
            Answer::Usage => 16,
            Answer::Refused(_) => 20,
            Answer::NoMemory => 32,
        }
    }
}
