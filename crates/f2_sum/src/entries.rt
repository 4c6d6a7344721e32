// The entries of a summary block.
ghost use Rattle.std.specs.Prelude.{◌≡◌, ◌≢◌, ℕ, ◌<◌, ◌*◌, length};
ghost use Rattle.f2_bytes.specs.Bytes.{with_bytes};
ghost use Rattle.f2_bytes.specs.Summary.{summary_entry};
ghost use Rattle.f2_bytes.specs.Summary.{summary_bytes as bytes_of_summary};
ghost use Rattle.f2_sum.specs.Records.{summary_of};

use crate::bytes::put_bytes;
use crate::records::{Summary, summary_at, summary_bytes};

/// Entry `k` of a summary block of 4096 bytes, which has 512 entries.
pub fn summary(b: &[u8], k: usize) -> Summary
    requires block { length b.now ≡ 4096 }
    requires entry { k < 512 }
    ensures { summary_of result ≡ summary_entry b.now k }
{
    summary_at(b, 7 * k)
}

/// Puts the summary into entry `k` of a summary block of 4096 bytes; only its 7 bytes change.
pub fn put_summary(b: &mut [u8], k: usize, s: Summary)
    requires block { length b.old ≡ 4096 }
    requires entry { k < 512 }
    ensures bytes { b.new ≡ with_bytes b.old (7 * k) (bytes_of_summary (summary_of s)) }
    ensures read { summary_entry b.new k ≡ summary_of s }
    ensures others { (j : ℕ) → j ≢ k → summary_entry b.new j ≡ summary_entry b.old j }
{
    put_bytes(b, 7 * k, &summary_bytes(s));
}
