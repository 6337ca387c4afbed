//! How far a trial is.
use luks1_header::Luks1Common;

/// Who is told how far a trial is.
pub trait Progress {
    /// The keyslots of the header with these fields are about to be tried.
    fn tries(&mut self, fields: &Luks1Common);
}

/// Tells nobody.
#[derive(Clone, Copy, PartialEq, Eq)]
pub struct Untold;

impl Progress for Untold {
    fn tries(&mut self, _fields: &Luks1Common) {}
}
