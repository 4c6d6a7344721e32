// The texts of numbers, of inode numbers, of ranges and of uuids.
ghost use Rattle.std.specs.Prelude.{◌≡◌, ◌≤◌, ◌<◌, ◌+◌, length};
ghost use Rattle.f2_top.specs.Numbers.{numeral_of, number_of, ino_of, end_of, range_of, pair_of, uuid_place, uuid_bytes, uuid_of};

// The number that the digits of a base write.
fn numeral(text: &str, base: u32) -> Option<u64>
    requires low { 2 ≤ base }
    requires high { base ≤ 16 }
    ensures { result ≡ numeral_of base text.now }
{
    // std reads a sign, which is no digit
    if text.starts_with('+') {
        return None;
    }
    u64::from_str_radix(text, base).ok()
}

/// The number that a text writes, if it writes one of 64 bits: decimal digits, or hexadecimal ones after `0x`.
pub fn number(text: &str) -> Option<u64>
    ensures { result ≡ number_of text.now }
{
    match text.strip_prefix("0x") {
        Some(digits) => numeral(digits, 16),
        None => numeral(text, 10),
    }
}

/// The inode number that a text writes, if it writes a number of 32 bits.
#[tactic(auto, unfolding(crate::specs::Numbers::ino_of))]
pub fn ino(text: &str) -> Option<u32>
    ensures { result ≡ ino_of text.now }
{
    let number = number(text)?;
    if number < 1 << 32 {
        Some(number as u32)
    } else {
        None
    }
}

// The last number of a range: `-1` is none.
#[tactic(auto, unfolding(crate::specs::Numbers::end_of))]
fn end(text: &str) -> Option<Option<u64>>
    ensures { result ≡ end_of text.now }
{
    if text == "-1" {
        Some(None)
    } else {
        Some(Some(number(text)?))
    }
}

/// The range that a text writes, if it writes one: `A~B`, or `A~-1`, which has no end.
#[tactic(auto, unfolding(crate::specs::Numbers::range_of))]
pub fn range(text: &str) -> Option<(u64, Option<u64>)>
    ensures { result ≡ range_of text.now }
{
    let (first, last) = text.split_once('~')?;
    Some((number(first)?, end(last)?))
}

// The number that two hexadecimal digits write.
#[tactic(auto, unfolding(crate::specs::Numbers::pair_of))]
fn pair(text: &[u8], at: usize) -> Option<u8>
    requires { at + 1 < length text.now }
    ensures { result ≡ pair_of text.now at }
{
    let high = char::from(text[at]).to_digit(16)?;
    let low = char::from(text[at + 1]).to_digit(16)?;
    Some((high * 16 + low) as u8)
}

// The place of the digits of byte i of a uuid.
fn uuid_digits(i: usize) -> usize
    requires { i < 16 }
    ensures same { result ≡ uuid_place i }
    ensures inside { result < 35 }
{
    let hyphens = if i < 4 {
        0
    } else if i < 6 {
        1
    } else if i < 8 {
        2
    } else if i < 10 {
        3
    } else {
        4
    };
    2 * i + hyphens
}

// The bytes of a uuid, of which the hyphens are read.
fn uuid_pairs(text: &[u8]) -> Option<[u8; 16]>
    requires { length text.now ≡ 36 }
    ensures { result ≡ uuid_bytes text.now 0 16 }
{
    let mut id = [0; 16];
    for i in 0..16 {
        id[i] = pair(text, uuid_digits(i))?;
    }
    Some(id)
}

/// The bytes of the uuid that a text writes, in the order of its digits.
#[tactic(auto, unfolding(crate::specs::Numbers::uuid_of))]
pub fn uuid(text: &str) -> Option<[u8; 16]>
    ensures { result ≡ uuid_of text.now }
{
    let text = text.as_bytes();
    if text.len() != 36 {
        return None;
    }
    if text[8] == b'-' && text[13] == b'-' && text[18] == b'-' && text[23] == b'-' {
        uuid_pairs(text)
    } else {
        None
    }
}
