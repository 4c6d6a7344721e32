// The compact form of the data logs' summaries.
ghost use Rattle.std.specs.Prelude.{◌≡◌, ◌≤◌, ◌<◌, ◌+◌, All, slice_index};
ghost use Rattle.f2_bytes.specs.Summary.{compact_place};

// The entries of the first block stand behind the two journals; each later block has entries alone.
const IN_FIRST_BLOCK: usize = 439;

const IN_LATER_BLOCK: usize = 584;

const FIRST_ENTRY: usize = 1014;

/// Where the compact form has entry `k` of data log `log`, 0 to 2: the block, counted from the first of the form, and
/// the byte there. No entry goes past byte 4091.
///
/// `counts` says how many entries the form has of each log: 512 where the log reuses holes, else its offset.
pub fn compact_spot(counts: [u16; 3], log: usize, k: usize) -> (usize, usize)
    requires data { log < 3 }
    requires entry { k < slice_index counts log }
    requires few { All (λ count. count ≤ 512) counts }
    ensures place { result ≡ compact_place counts log k }
    ensures block { result.0 ≤ 2 }
    ensures inside { result.1 + 7 ≤ 4092 }
{
    let before: usize = counts[..log].iter().map(|count| usize::from(*count)).sum();
    let entry = before + k;
    if entry < IN_FIRST_BLOCK {
        (0, FIRST_ENTRY + 7 * entry)
    } else {
        let later = entry - IN_FIRST_BLOCK;
        (1 + later / IN_LATER_BLOCK, 7 * (later % IN_LATER_BLOCK))
    }
}
