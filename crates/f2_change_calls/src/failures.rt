// What a call answers where the library answers a refusal.
use f2_case_disk::CallError;
use f2_commit::{PrepareRefusal, ShiftRefusal};
use f2_roll::RollRefusal;
use f2_view::{MountRefusal, ViewRefusal};
use std::alloc::AllocError;

pub(crate) fn of_memory(_: AllocError) -> CallError {
    CallError::NoMemory
}

pub(crate) fn of_mount(refusal: MountRefusal) -> CallError {
    match refusal {
        MountRefusal::DiskFault => CallError::DiskFault,
        MountRefusal::NoMemory => CallError::NoMemory,
        _ => CallError::Words,
    }
}

pub(crate) fn of_view(refusal: ViewRefusal) -> CallError {
    match refusal {
        ViewRefusal::DiskFault => CallError::DiskFault,
        ViewRefusal::NoMemory => CallError::NoMemory,
    }
}

pub(crate) fn of_roll(refusal: RollRefusal) -> CallError {
    match refusal {
        RollRefusal::DiskFault => CallError::DiskFault,
        RollRefusal::NoMemory => CallError::NoMemory,
    }
}

pub(crate) fn of_prepare(refusal: PrepareRefusal) -> CallError {
    match refusal {
        PrepareRefusal::DiskFault => CallError::DiskFault,
        PrepareRefusal::NoMemory => CallError::NoMemory,
    }
}

pub(crate) fn of_shift(refusal: ShiftRefusal) -> CallError {
    match refusal {
        ShiftRefusal::DiskFault => CallError::DiskFault,
        ShiftRefusal::NoMemory => CallError::NoMemory,
    }
}
