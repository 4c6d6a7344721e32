// A block of a directory, with its level and its bucket.
ghost use Rattle.std.specs.Prelude.{◌≡◌, ◌+◌, ◌<◌, ◌^◌};
ghost use Rattle.f2_bytes.specs.Buckets.{bucket_of, bucket_of_block, level_of_block};
ghost use Rattle.f2_bytes.specs.Buckets.{bucket_count as buckets_of_level};

use f2_dent::level_of;

/// A block of a directory.
#[derive(Clone, Copy)]
pub struct InBlock {
    /// Its number in the directory.
    pub number: u64,
    /// The levels of the directory begin with 2^`dir_level` buckets.
    pub dir_level: u8,
    /// The level of the block, and the number of its bucket there.
    pub level: u32,
    pub bucket: u64,
    ghost low: { level < 64 },
    ghost small: { number < 2 ^ 32 },
}

// How many buckets a level has.
fn buckets(level: u32, dir_level: u8) -> u64
    requires { level < 64 }
    ensures same { result ≡ buckets_of_level level dir_level }
    ensures some { 0 < result }
{
    let depth = level + u32::from(dir_level);
    if depth < 31 { 1 << depth } else { 1 << 30 }
}

impl InBlock {
    /// Block `number` of a directory.
    pub fn new(number: u64, dir_level: u8) -> InBlock
        requires { number < 2 ^ 32 }
        ensures number { result.number ≡ number }
        ensures dir_level { result.dir_level ≡ dir_level }
        ensures level { result.level ≡ level_of_block dir_level number }
        ensures bucket { result.bucket ≡ bucket_of_block dir_level number }
    {
        let (level, bucket) = level_of(number, dir_level);
        InBlock {
            number,
            dir_level,
            level,
            bucket,
        }
    }

    /// The bucket of a hash in the level of the block.
    pub fn bucket_for(&self, hash: u32) -> u64
        ensures { result ≡ bucket_of self.now.level self.now.dir_level hash }
    {
        u64::from(hash) % buckets(self.level, self.dir_level)
    }
}
