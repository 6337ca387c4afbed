//! What is printed of a value or of its fault.
use crate::malformed::Malformed;
use std::alloc::Global;
use std::fmt::{Debug, Display};

/// The value as it displays itself, or its fault.
pub fn told<T: Display + Drop, F: Display + Drop>(
    alloc: Global,
    found: Result<T, F>,
) -> Result<String, Malformed> {
    match found {
        Ok(value) => Ok(format!(in alloc; "{value}")?),
        Err(fault) => Ok(format!(in alloc; "{fault}")?),
    }
}

/// The value by its fields, or its fault.
pub fn shown<T: Debug + Drop, F: Display + Drop>(
    alloc: Global,
    found: Result<T, F>,
) -> Result<String, Malformed> {
    match found {
        Ok(value) => Ok(format!(in alloc; "{value:?}")?),
        Err(fault) => Ok(format!(in alloc; "{fault}")?),
    }
}

/// `done`, or the fault.
pub fn done<F: Display + Drop>(alloc: Global, done: Result<(), F>) -> Result<String, Malformed> {
    told(alloc, done.map(|()| "done"))
}
