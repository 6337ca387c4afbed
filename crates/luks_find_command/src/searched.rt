//! The file that is searched.

/// The file that is searched.
#[derive(Clone, Copy)]
pub(crate) struct Searched<'a> {
    /// Its name.
    pub(crate) name: &'a str,
    /// The byte of it that is the device's first.
    pub(crate) offset: u64,
}
