// Chains of nodes that come back to their first one.
use crate::words::{number, small};
use f2_case_disk::{CallError, CaseDisk};
use f2_disk::Block;

// Puts so many nodes of a version from an address on, each of which names the next, and the last one the first.
pub(crate) fn put_ring(disk: &mut CaseDisk, words: &[String]) -> Result<(), CallError> {
    let [first, count, version] = words else {
        return Err(CallError::Words);
    };
    let (first, count) = (small(first.as_str())?, small(count.as_str())?);
    let version = number(version.as_str())?;
    let Some(end) = first.checked_add(count) else {
        return Err(CallError::Words);
    };
    for address in first..end {
        let behind = address + 1;
        let next = if behind == end { first } else { behind };
        let mut b = Block::zeros();
        b.put(4084, &version.to_le_bytes());
        b.put(4092, &next.to_le_bytes());
        disk.set(u64::from(address), &b)?;
    }
    Ok(())
}
