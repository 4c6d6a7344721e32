// The head of the new pack.
ghost use Rattle.std.specs.Prelude.{◌≡◌, ◌≤◌, ◌<◌, ◌+◌, ◌*◌, ◌^◌, ◌==◌, ℕ, Bool, All, length, IfOk};
ghost use Rattle.std.specs.List.{list_any};
ghost use Rattle.f2_bytes.specs.Checkpoint.{checkpoint_rows, sit_ver_bitmap_bytesize, nat_ver_bitmap_bytesize, sit_bits, nat_bits};
ghost use Rattle.f2_bytes.specs.Fields.{row_at, with_field, field_at};
ghost use Rattle.f2_change.specs.Change.{log_at, next_rows, TurnsBits, IsNextHead};
ghost use Rattle.f2_change.specs.Heads.{FitCounts, FitLog, FitRows, PutsRows};

use crate::Counts;
use f2_bytes::{CHECKPOINT, NoMemory, bit_msb, set_bit_msb};
use f2_disk::Block;
use f2_pack::Log;
use std::alloc::Global;

// Puts the number `v` into row `k` of a head.
fn set_row(b: &mut [u8], k: usize, v: u64)
    requires size { length b.old ≡ 4096 }
    requires row { k < 64 }
    requires fits { v < 256 ^ (row_at checkpoint_rows k).width }
    ensures bytes { b.new ≡ with_field checkpoint_rows b.old k v }
    ensures read { field_at checkpoint_rows b.new k ≡ v }
{
    CHECKPOINT.set(b, k, v);
}

// Puts these numbers into the rows of a head; no byte outside of the rows changes.
fn put_rows(b: &mut [u8], rows: &[(usize, u64)])
    requires size { length b.old ≡ 4096 }
    requires fits { FitRows rows.now }
    ensures { PutsRows rows.now b.old b.new }
{
    for w in rows {
        set_row(b, w.0, w.1);
    }
}

// The numbers of a log are as wide as their types.
fn fit_log(at: &Log)
    ensures { FitLog at.now }
{
    let _segno = at.segno;
    let _offset = at.offset;
}

// So are those of each log.
fn fit_logs(logs: &[Log; 6])
    ensures { (t : ℕ) → t < 6 → FitLog (log_at logs.now t) }
{
    for at in logs {
        fit_log(at);
    }
}

// And those of counts.
fn fit_counts(counts: &Counts)
    ensures { FitCounts counts.now }
{
    let _user = counts.user;
    let _valid = counts.valid;
    let _nodes = counts.nodes;
    let _inodes = counts.inodes;
    let _free = counts.free;
    let _next_nid = counts.next_nid;
}

// The rows that may differ from those of the old head, each with its number.
fn next_rows(version: u64, logs: &[Log; 6], counts: &Counts) -> [(usize, u64); 28]
    ensures rows { result ≡ next_rows version logs.now counts.now }
    ensures fits { FitRows result }
{
    fit_logs(logs);
    fit_counts(counts);
    [
        (0, version),
        (1, counts.user),
        (2, counts.valid),
        (5, u64::from(counts.free)),
        (38, 0x41),
        (39, 8),
        (40, 1),
        (41, u64::from(counts.nodes)),
        (42, u64::from(counts.inodes)),
        (43, u64::from(counts.next_nid)),
        (22, u64::from(logs[0].segno)),
        (30, u64::from(logs[0].offset)),
        (48, u64::from(logs[0].reuse)),
        (23, u64::from(logs[1].segno)),
        (31, u64::from(logs[1].offset)),
        (49, u64::from(logs[1].reuse)),
        (24, u64::from(logs[2].segno)),
        (32, u64::from(logs[2].offset)),
        (50, u64::from(logs[2].reuse)),
        (6, u64::from(logs[3].segno)),
        (14, u64::from(logs[3].offset)),
        (51, u64::from(logs[3].reuse)),
        (7, u64::from(logs[4].segno)),
        (15, u64::from(logs[4].offset)),
        (52, u64::from(logs[4].reuse)),
        (8, u64::from(logs[5].segno)),
        (16, u64::from(logs[5].offset)),
        (53, u64::from(logs[5].reuse)),
    ]
}

// A version bitmap with the bits of these blocks turned.
pub(crate) fn turned_bits(alloc: Global, old: &[u8], blocks: &[u32]) -> Result<Vec<u8>, NoMemory>
    requires inside { All (λ k. k < 8 * length old.now) blocks.now }
    ensures { IfOk result (λ bits. TurnsBits old.now bits.items (λ k. list_any (λ n. n == k) blocks.now)) }
{
    let mut bits = match old.to_vec(alloc) {
        Ok(bits) => bits,
        Err(_) => return Err(NoMemory),
    };
    turn(old, &mut bits, blocks);
    Ok(bits)
}

// Turns the bits of these blocks in a bitmap that is as the old one.
fn turn(old: &[u8], bits: &mut [u8], blocks: &[u32])
    requires inside { All (λ k. k < 8 * length old.now) blocks.now }
    requires same { bits.old ≡ old.now }
    ensures { TurnsBits old.now bits.new (λ k. list_any (λ n. n == k) blocks.now) }
{
    for k in blocks {
        let bit = bit_msb(old, *k as usize);
        set_bit_msb(bits, *k as usize, !bit);
    }
}

// The old head with these rows.
fn with_rows(old: &Block, version: u64, logs: &[Log; 6], counts: &Counts) -> [u8; 4096]
    ensures rows { PutsRows (next_rows version logs.now counts.now) old.now result }
    ensures size { length old.now ≡ 4096 }
{
    let mut bytes = [0; 4096];
    bytes.copy_from_slice(old.bytes());
    put_rows(&mut bytes, &next_rows(version, logs, counts));
    bytes
}

// The old head with new numbers and with these version bitmaps, which are as long as the old ones.
pub(crate) fn next_head(
    old: &Block,
    version: u64,
    logs: &[Log; 6],
    counts: &Counts,
    sit: &[u8],
    nat: &[u8],
) -> Block
    requires sit { length sit.now ≡ sit_ver_bitmap_bytesize old.now }
    requires nat { length nat.now ≡ nat_ver_bitmap_bytesize old.now }
    requires room { 192 + length sit.now + length nat.now ≤ 4092 }
    ensures { (s n : ℕ → Bool) → TurnsBits (sit_bits old.now) sit.now s → TurnsBits (nat_bits old.now) nat.now n
        → IsNextHead old.now (next_rows version logs.now counts.now) s n result }
{
    let bytes = with_rows(old, version, logs, counts);
    let mut head = Block::zeros();
    head.put(0, &bytes);
    head.put(192, sit);
    head.put(192 + sit.len(), nat);
    let held = head.bytes();
    prove!(held.len() == 4096);
    head
}
