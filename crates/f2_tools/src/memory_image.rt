// Images in memory.
ghost use Rattle.std.specs.Prelude.{◌≤◌, ◌^◌, IfSome};

/// How many blocks of zeros are to be the image, where the word asks for an image in memory: `mem:` and one to nine decimal
/// digits, which write a number of at most 2^28.
pub fn memory_blocks(image: &str) -> Option<u64>
    ensures { IfSome result (λ blocks. blocks ≤ 2 ^ 28) }
{
    let digits = image.strip_prefix("mem:")?;
    // std reads a sign, which is no digit
    if digits.len() > 9 || digits.starts_with('+') {
        return None;
    }
    let blocks = u64::from_str_radix(digits, 10).ok()?;
    if blocks <= 1 << 28 {
        Some(blocks)
    } else {
        None
    }
}
