// Superblock copies.
use crate::words::{number, of_memory};
use f2_case_disk::{CallError, CaseDisk};
use f2_super::{read_copy, write_copy};

// The areas that a copy says.
pub(crate) fn put_fields(
    disk: &mut CaseDisk,
    words: &[String],
    text: &mut String,
) -> Result<(), CallError> {
    let [at] = words else {
        return Err(CallError::Words);
    };
    let Some(copy) = read_copy(&disk.get(number(at.as_str())?)) else {
        return text.push_str("none\n").map_err(of_memory);
    };
    let features = copy.field(31);
    let l = copy.layout();
    writeln!(
        text,
        "features {features} blocks {} segments {}",
        l.blocks, l.segments
    )
    .map_err(of_memory)?;
    writeln!(
        text,
        "cp {} sit {} nat {} ssa {} main {}",
        l.cp, l.sit, l.nat, l.ssa, l.main
    )
    .map_err(of_memory)?;
    writeln!(
        text,
        "half of sit {} half of nat {}",
        l.sit_half, l.nat_half
    )
    .map_err(of_memory)
}

// Puts a copy into another block.
pub(crate) fn copy(disk: &mut CaseDisk, words: &[String]) -> Result<(), CallError> {
    let [from, to] = words else {
        return Err(CallError::Words);
    };
    let to = number(to.as_str())?;
    let Some(copy) = read_copy(&disk.get(number(from.as_str())?)) else {
        return Err(CallError::Words);
    };
    let mut b = disk.get(to);
    write_copy(&copy, &mut b);
    disk.set(to, &b)?;
    Ok(())
}
