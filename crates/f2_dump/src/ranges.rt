// The ranges of numbers that can be dumped.
ghost use Rattle.std.specs.Prelude.{◌≡◌, ◌≤◌, ◌-◌, None};
ghost use Rattle.std.specs.List.{range_with_len};
ghost use Rattle.f2_bytes.specs.Superblock.{IsInOrder};
ghost use Rattle.f2_dump.specs.Text.{outside as is_outside, outside_of as lies_outside, numbers_of};

use crate::What;
use f2_bytes::Layout;

// The number of a range that lies outside of those below a limit.
fn outside_of(limit: u64, first: u64, last: Option<u64>) -> Option<u64>
    ensures { result ≡ lies_outside limit first last }
{
    match last {
        None => { if limit <= first { Some(first) } else { None } }
        Some(last) => {
            if limit <= first || last < first {
                Some(first)
            } else if limit <= last {
                Some(last)
            } else {
                None
            }
        }
    }
}

// The number that lies outside of what can be dumped of an image with this layout.
pub(crate) fn outside(l: &Layout, what: What) -> Option<u64>
    requires { IsInOrder l.now }
    ensures { result ≡ is_outside l.now what }
{
    match what {
        What::Cp => None,
        What::Nat(first, last) => outside_of(455 * u64::from(l.nat_half), first, last),
        What::Sit(first, last) => outside_of(u64::from(l.segments), first, last),
        What::Raw(address) => outside_of(l.blocks, address, None),
        What::Ssa(first, last) => outside_of(u64::from(l.segments), first, last),
        What::Inode(_) | What::Cat(_) => None,
    }
}

// The number past those of a range below a limit.
pub(crate) fn end_of(limit: u32, first: u64, last: Option<u64>) -> u32
    requires { lies_outside limit first last ≡ None }
    ensures numbers { numbers_of limit first last ≡ range_with_len first (result - first) }
    ensures later { first ≤ result }
    ensures within { result ≤ limit }
{
    match last {
        None => limit,
        Some(last) => last as u32 + 1,
    }
}
