// Segments of the main area by their entries of the segment table, and those that logs fill.
ghost use Rattle.std.specs.Prelude.{◌≡◌, ◌<◌, ◌==◌, map};
ghost use Rattle.std.specs.List.{list_any};
ghost use Rattle.f2_bytes.specs.Bits.{bit_msb};
ghost use Rattle.f2_bytes.specs.Bytes.{numbers_below, count_below};
ghost use Rattle.f2_bytes.specs.Checkpoint.{log, log_numbers};

use f2_bytes::count_bits;
use f2_sum::SitEntry;
use f2_view::Mount;

/// How many of the 512 blocks of a segment are marked valid.
pub fn count_valid(entry: &SitEntry) -> u32
    ensures { result ≡ count_below 512 (bit_msb entry.now.map) }
{
    count_bits(&entry.map)
}

/// Whether one is.
#[tactic(auto, using(f2_survey::proofs::Counted::some_counted))]
pub fn has_valid(entry: &SitEntry) -> bool
    ensures { result ≡ list_any (bit_msb entry.now.map) (numbers_below 512) }
{
    count_valid(entry) > 0
}

/// The segment of log `t`.
pub fn log_segment(m: &Mount, t: usize) -> u32
    requires { t < 6 }
    ensures { result ≡ (log m.now.chosen.head t).segment }
{
    m.log(t).segno
}

/// The segments of the six logs.
pub fn log_segments(m: &Mount) -> [u32; 6]
    ensures { result ≡ map (λ t. (log m.now.chosen.head t).segment) log_numbers }
{
    [
        log_segment(m, 0),
        log_segment(m, 1),
        log_segment(m, 2),
        log_segment(m, 3),
        log_segment(m, 4),
        log_segment(m, 5),
    ]
}

/// Whether one of these is this segment.
pub fn has_segment(logs: &[u32; 6], segno: u32) -> bool
    ensures { result ≡ list_any (λ s. s == segno) logs.now }
{
    logs.contains(&segno)
}
