//! What is answered of an edit.

use luks_edit::{Done, EditFault};
use std::alloc::{AllocError, Global};

/// What the program prints of the answer.
pub(crate) fn line_of(
    alloc: Global,
    answer: &Result<Done, EditFault>,
) -> Result<String, AllocError> {
    match answer {
        Ok(Done { slot: Some(n) }) => format!(in alloc; "done slot {n}"),
        Ok(_) => String::from_str(alloc, "done"),
        Err(fault) => format!(in alloc; "refused {fault}"),
    }
}
