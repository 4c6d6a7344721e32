// Hexadecimal digits, and the lines of a block.
ghost use Rattle.std.specs.Prelude.{◌≡◌, ◌≤◌, ◌<◌, ◌+◌, ◌*◌, ◌++◌, length, OnOk};
ghost use Rattle.f2_dump.specs.Text.{hex_digit as digit_of, hex_bytes, row_line, block_lines};

use std::alloc::AllocError;

// The digit of a number below 16, in lower case.
fn hex_digit(n: u8) -> u8
    requires { n < 16 }
    ensures { result ≡ digit_of n }
{
    if n < 10 { 48 + n } else { 87 + n }
}

// Appends the two digits of each byte.
pub(crate) fn push_hex(text: &mut Vec<u8>, bytes: &[u8]) -> Result<(), AllocError>
    ensures digits { OnOk result (text.new.items ≡ text.old.items ++ hex_bytes bytes.now) }
    ensures size { length text.new.items ≤ length text.old.items + 2 * length bytes.now }
{
    for b in bytes {
        text.extend_from_slice(&[hex_digit(*b / 16), hex_digit(*b % 16)])?;
    }
    Ok(())
}

// Appends the line of the 16 bytes from byte 16 k on of a block.
fn push_row(text: &mut Vec<u8>, bytes: &[u8], k: usize) -> Result<(), AllocError>
    requires block { length bytes.now ≡ 4096 }
    requires row { k < 256 }
    ensures line { OnOk result (text.new.items ≡ text.old.items ++ row_line bytes.now k) }
    ensures size { length text.new.items ≤ length text.old.items + 38 }
{
    let offset = k as u8;
    text.extend_from_slice(&[hex_digit(offset / 16), hex_digit(offset % 16)])?;
    text.extend_from_slice(b"0: ")?;
    push_hex(text, &bytes[16 * k..16 * k + 16])?;
    text.extend_from_slice(b"\n")
}

// Appends the lines of a block.
pub(crate) fn push_rows(text: &mut Vec<u8>, bytes: &[u8]) -> Result<(), AllocError>
    requires { length bytes.now ≡ 4096 }
    ensures lines { OnOk result (text.new.items ≡ text.old.items ++ block_lines bytes.now) }
    ensures size { length text.new.items ≤ length text.old.items + 9728 }
{
    for k in 0..256 {
        push_row(text, bytes, k)?;
    }
    Ok(())
}
