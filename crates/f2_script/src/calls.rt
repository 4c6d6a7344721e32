// The calls of the libraries.
use f2_case_disk::{CallError, CaseDisk};
use std::alloc::Global;

// What the library says that the words name: the first crate of calls that knows them answers.
pub(crate) fn call(
    alloc: Global,
    disk: &mut CaseDisk,
    words: &[String],
) -> Result<Vec<u8>, CallError> {
    match f2_record_calls::call(alloc, disk, words) {
        Err(CallError::Unknown) => {}
        answer => return answer,
    }
    match f2_image_calls::call(alloc, disk, words) {
        Err(CallError::Unknown) => {}
        answer => return answer,
    }
    f2_change_calls::call(alloc, disk, words)
}
