// Numbers of the words of a call.
use f2_case_disk::{CallError, number_of};
use std::alloc::AllocError;

pub(crate) fn of_memory(_: AllocError) -> CallError {
    CallError::NoMemory
}

// The number of a word.
pub(crate) fn number(word: &str) -> Result<u64, CallError> {
    number_of(word).ok_or(CallError::Words)
}

// The number of 32 bits of a word.
pub(crate) fn small(word: &str) -> Result<u32, CallError> {
    u32::try_from(number(word)?).map_err(|_| CallError::Words)
}
