// Numbers of the words of a call.
use f2_case_disk::{CallError, number_of};
use std::alloc::{AllocFailed, Global};

// The number of a word.
pub(crate) fn number(word: &str) -> Result<u64, CallError> {
    number_of(word).ok_or(CallError::Words)
}

// A number as one of 32 bits.
pub(crate) fn narrow(number: u64) -> Result<u32, CallError> {
    u32::try_from(number).map_err(|_| CallError::Words)
}

// The number of 32 bits of a word.
pub(crate) fn small(word: &str) -> Result<u32, CallError> {
    narrow(number(word)?)
}

// The numbers of 32 bits of words.
pub(crate) fn smalls(alloc: Global, words: &[String]) -> Result<Vec<u32>, CallError> {
    let mut numbers = Vec::new(alloc);
    for word in words {
        let number = small(word.as_str())?;
        numbers
            .push(number)
            .map_err(|_: AllocFailed<u32>| CallError::NoMemory)?;
    }
    Ok(numbers)
}

// The words before the first one that is this, and those behind it.
pub(crate) fn parted<'a>(words: &'a [String], by: &str) -> (&'a [String], &'a [String]) {
    for k in 0..words.len() {
        if words[k].as_str() == by {
            return (&words[..k], &words[k + 1..]);
        }
    }
    (words, &[])
}
