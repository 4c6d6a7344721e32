// Why a statement of a case wasn't met.
use f2_bytes::NoMemory;
use std::alloc::{AllocError, AllocFailed, Global};

// A statement that is wrong or wasn't met, in words; or no memory.
#[derive(Drop)]
pub(crate) enum Slip {
    Wrong(String),
    NoMemory,
}

impl From<AllocError> for Slip {
    fn from(_: AllocError) -> Slip {
        Slip::NoMemory
    }
}

impl<T: Drop> From<AllocFailed<T>> for Slip {
    fn from(_: AllocFailed<T>) -> Slip {
        Slip::NoMemory
    }
}

impl From<NoMemory> for Slip {
    fn from(_: NoMemory) -> Slip {
        Slip::NoMemory
    }
}

// What was wrong, in words.
pub(crate) fn wrong(alloc: Global, text: &str) -> Slip {
    match String::from_str(alloc, text) {
        Ok(text) => Slip::Wrong(text),
        Err(_) => Slip::NoMemory,
    }
}
