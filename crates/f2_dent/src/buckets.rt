// The buckets of a directory.
ghost use Rattle.std.specs.Prelude.{◌≡◌, ◌<◌, ◌≤◌, ◌*◌, ◌^◌};
ghost use Rattle.f2_bytes.specs.Buckets.{bucket_count, bucket_start, bucket_blocks, level_start, level_of_block, bucket_of_block};

// The buckets of a level.
fn buckets(level: u32, dir_level: u8) -> u64
    requires { level < 63 }
    ensures same { result ≡ bucket_count level dir_level }
    ensures some { 0 < result }
    ensures few { result ≤ 2 ^ 30 }
{
    let depth = level + u32::from(dir_level);
    if depth < 31 { 1 << depth } else { 1 << 30 }
}

// The blocks of each bucket of a level.
fn blocks(level: u32) -> u64
    ensures { result ≡ bucket_blocks level }
{
    if level < 31 { 2 } else { 4 }
}

// The blocks of a level.
fn level_size(level: u32, dir_level: u8) -> u64
    requires { level < 63 }
    ensures same { result ≡ bucket_count level dir_level * bucket_blocks level }
    ensures few { result ≤ 2 ^ 32 }
{
    buckets(level, dir_level) * blocks(level)
}

// The first block of a level.
fn start_of(level: u32, dir_level: u8) -> u64
    requires { level < 63 }
    ensures same { result ≡ level_start level dir_level }
    ensures few { result ≤ level * 2 ^ 32 }
{
    let mut start = 0;
    for before in 0..level {
        start += level_size(before, dir_level);
    }
    start
}

/// The bucket of a hash in a level of a directory whose levels begin with 2^`dir_level` buckets: its first block in the
/// directory, and how many blocks it has. It takes no memory.
pub fn bucket_range(level: u32, dir_level: u8, hash: u32) -> (u64, u64)
    requires { level < 63 }
    ensures { result ≡ (bucket_start level dir_level hash, bucket_blocks level) }
{
    let bucket = u64::from(hash) % buckets(level, dir_level);
    let blocks = blocks(level);
    (start_of(level, dir_level) + bucket * blocks, blocks)
}

/// The level of a block of such a directory, and the number of its bucket there. It takes no memory.
pub fn level_of(block: u64, dir_level: u8) -> (u32, u64)
    requires { block < 2 ^ 32 }
    ensures { result ≡ (level_of_block dir_level block, bucket_of_block dir_level block) }
{
    let mut level = 0;
    let mut start = 0;
    let mut next = level_size(level, dir_level);
    while next <= block {
        level += 1;
        start = next;
        next += level_size(level, dir_level);
    }
    (level, (block - start) / blocks(level))
}
