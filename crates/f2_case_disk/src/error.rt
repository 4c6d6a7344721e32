// Why a library call of a case has no answer.
use f2_bytes::NoMemory;
use f2_disk::DiskFault;
use std::alloc::{AllocError, AllocFailed};
use thiserror::Error;

/// Why a library call of a case has no answer.
#[derive(Clone, Copy, Debug, PartialEq, Eq, Error)]
pub enum CallError {
    /// There is no call of this name here.
    #[error("there is no such call")]
    Unknown,
    /// The words don't parse, or break what the library requires.
    #[error("the words of the call don't fit")]
    Words,
    #[error("a call of the disk failed")]
    DiskFault,
    #[error("memory ran out")]
    NoMemory,
}

impl From<NoMemory> for CallError {
    fn from(_: NoMemory) -> CallError {
        CallError::NoMemory
    }
}

impl From<DiskFault> for CallError {
    fn from(_: DiskFault) -> CallError {
        CallError::DiskFault
    }
}

impl From<AllocError> for CallError {
    fn from(_: AllocError) -> CallError {
        CallError::NoMemory
    }
}

impl<T: Drop> From<AllocFailed<T>> for CallError {
    fn from(_: AllocFailed<T>) -> CallError {
        CallError::NoMemory
    }
}
