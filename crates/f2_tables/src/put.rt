// Entries that are put into a block of a table.
ghost use Rattle.std.specs.Prelude.{◌≡◌, ◌≢◌, ℕ, ◌*◌, ◌<◌};
ghost use Rattle.f2_bytes.specs.Bytes.{with_bytes};
ghost use Rattle.f2_bytes.specs.Journal.{nat_entry_at, sit_entry_at, FitsSitEntry};
ghost use Rattle.f2_bytes.specs.Journal.{nat_entry_bytes as bytes_of_nat_entry, sit_entry_bytes as bytes_of_sit_entry};
ghost use Rattle.f2_sum.specs.Records.{nat_entry, sit_entry};

use f2_disk::Block;
use f2_sum::{NatEntry, SitEntry, nat_entry_bytes, sit_entry_bytes};

/// Puts entry `k` into a block of the node address table, which has 455; only its 9 bytes change.
pub fn put_nat(b: &mut Block, k: usize, e: NatEntry)
    requires { k < 455 }
    ensures bytes { b.new ≡ with_bytes b.old (9 * k) (bytes_of_nat_entry (nat_entry e)) }
    ensures read { nat_entry_at b.new (9 * k) ≡ nat_entry e }
    ensures others { (j : ℕ) → j ≢ k → nat_entry_at b.new (9 * j) ≡ nat_entry_at b.old (9 * j) }
{
    b.put(9 * k, &nat_entry_bytes(e));
}

/// Puts entry `k`, whose kind is below 64 and whose count is below 1024, into a block of the segment table, which has
/// 55; only its 74 bytes change.
pub fn put_sit(b: &mut Block, k: usize, e: SitEntry)
    requires entry { k < 55 }
    requires fits { FitsSitEntry (sit_entry e) }
    ensures bytes { b.new ≡ with_bytes b.old (74 * k) (bytes_of_sit_entry (sit_entry e)) }
    ensures read { sit_entry_at b.new (74 * k) ≡ sit_entry e }
    ensures others { (j : ℕ) → j ≢ k → sit_entry_at b.new (74 * j) ≡ sit_entry_at b.old (74 * j) }
{
    b.put(74 * k, &sit_entry_bytes(e));
}
