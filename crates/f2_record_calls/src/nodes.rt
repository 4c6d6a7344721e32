// Calls of f2_node: where nodes and blocks of files stand, and what nodes say.
ghost use Rattle.std.specs.Prelude.{◌≡◌, ◌<◌, IfOk};

use crate::words::{Words, put_block};
use f2_case_disk::{CallError, CaseDisk};
use f2_node::{
    Footer, Spot, address_at, addresses, footer, has_bytes, has_slots, inline_range, is_inline,
    kind, locate, nid_at, parent_of, set_footer, set_word, word, words_used,
};

pub(crate) fn call(
    disk: &mut CaseDisk,
    words: Words<'_>,
    text: &mut String,
) -> Result<(), CallError> {
    match (words.name(), words.count()) {
        ("node-location", 2) => say_location(words, text),
        ("node-parent", 1) => say_spot(text, parent_of(words.four(1)?)),
        ("address-at", 3) => say_address(disk, words, text),
        ("nid-at", 3) => say_nid(disk, words, text),
        ("addresses", 1) => say(text, addresses(&words.block(disk)?)),
        ("inline-range", 1) => say_range(disk, words, text),
        ("kind", 1) => say_kind(words, text),
        ("content", 1) => say_content(disk, words, text),
        ("footer", 1) => say_footer(disk, words, text),
        ("set-footer", 6) => put_footer(disk, words),
        ("word", 2) => say(text, word(&words.block(disk)?, words.up_to(2, 1023)?)),
        ("set-word", 3) => put_word(disk, words),
        ("words-used", 3) => say_used(disk, words, text),
        ("words-used-alone", 3) => say_alone(disk, words, text),
        _ => Err(CallError::Unknown),
    }
}

fn say(text: &mut String, number: u32) -> Result<(), CallError> {
    writeln!(text, "{number}")?;
    Ok(())
}

fn say_spot(text: &mut String, spot: Option<Spot>) -> Result<(), CallError> {
    match spot {
        Some(Spot { offset, slot }) => writeln!(text, "node {offset} slot {slot}")?,
        None => text.push_str("none\n")?,
    }
    Ok(())
}

fn say_location(words: Words<'_>, text: &mut String) -> Result<(), CallError> {
    let addresses = words.four(2)?;
    if addresses > 923 {
        return Err(CallError::Words);
    }
    say_spot(text, locate(words.number(1)?, addresses))
}

// The place in the second and third words, where an inode has so many of these.
fn spot_of(words: Words<'_>, in_inode: u32) -> Result<Spot, CallError>
    ensures node { IfOk result (λ spot. spot.slot < 1018) }
    ensures inode { IfOk result (λ spot. spot.offset ≡ 0 → spot.slot < in_inode) }
{
    let offset = words.four(2)?;
    let slot = words.four(3)?;
    if slot >= 1018 || (offset == 0 && slot >= in_inode) {
        return Err(CallError::Words);
    }
    Ok(Spot { offset, slot })
}

fn say_address(disk: &CaseDisk, words: Words<'_>, text: &mut String) -> Result<(), CallError> {
    say(text, address_at(&words.block(disk)?, spot_of(words, 923)?))
}

fn say_nid(disk: &CaseDisk, words: Words<'_>, text: &mut String) -> Result<(), CallError> {
    say(text, nid_at(&words.block(disk)?, spot_of(words, 5)?))
}

fn say_range(disk: &CaseDisk, words: Words<'_>, text: &mut String) -> Result<(), CallError> {
    let (from, length) = inline_range(&words.block(disk)?);
    writeln!(text, "byte {from} length {length}")?;
    Ok(())
}

fn say_kind(words: Words<'_>, text: &mut String) -> Result<(), CallError> {
    match kind(words.two(1)?) {
        Some(kind) => writeln!(text, "{kind:?}")?,
        None => text.push_str("none\n")?,
    }
    Ok(())
}

fn say_content(disk: &CaseDisk, words: Words<'_>, text: &mut String) -> Result<(), CallError> {
    let b = words.block(disk)?;
    let (inline, slots, bytes) = (is_inline(&b), has_slots(&b), has_bytes(&b));
    writeln!(text, "inline {inline} slots {slots} bytes {bytes}")?;
    Ok(())
}

fn say_footer(disk: &CaseDisk, words: Words<'_>, text: &mut String) -> Result<(), CallError> {
    let f = footer(&words.block(disk)?);
    let (nid, ino, flag) = (f.nid, f.ino, f.flag);
    let (version, next) = (f.cp_ver, f.next);
    writeln!(
        text,
        "nid {nid} ino {ino} flag {flag} version {version} next {next}"
    )?;
    Ok(())
}

fn put_footer(disk: &mut CaseDisk, words: Words<'_>) -> Result<(), CallError> {
    let mut b = words.block(disk)?;
    let f = Footer {
        nid: words.four(2)?,
        ino: words.four(3)?,
        flag: words.four(4)?,
        cp_ver: words.number(5)?,
        next: words.four(6)?,
    };
    set_footer(&mut b, &f);
    put_block(disk, words.number(1)?, &b)
}

fn put_word(disk: &mut CaseDisk, words: Words<'_>) -> Result<(), CallError> {
    let mut b = words.block(disk)?;
    let k = words.up_to(2, 1023)?;
    set_word(&mut b, k, words.four(3)?);
    put_block(disk, words.number(1)?, &b)
}

fn say_used(disk: &CaseDisk, words: Words<'_>, text: &mut String) -> Result<(), CallError> {
    let from = words.up_to(2, 1024)?;
    let count = words.up_to(3, 1024 - from)?;
    let used = words_used(&words.block(disk)?, from, count);
    writeln!(text, "{used}")?;
    Ok(())
}

// Counts the words of a range that are its last used one where they alone are 1.
fn say_alone(disk: &CaseDisk, words: Words<'_>, text: &mut String) -> Result<(), CallError> {
    let from = words.up_to(2, 1024)?;
    let count = words.up_to(3, 1024 - from)?;
    let block = words.block(disk)?;
    let mut right = 0u64;
    for k in 0..count {
        let mut b = block;
        set_word(&mut b, from + k, 1);
        if words_used(&b, from, count) == k + 1 {
            right = right.saturating_add(1);
        }
    }
    writeln!(text, "{right} of {count}")?;
    Ok(())
}
