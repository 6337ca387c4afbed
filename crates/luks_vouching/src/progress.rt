//! How far a search is.

/// Who is told how far the search is for what a checksum vouches for.
pub trait SearchProgress {
    /// All compositions of so many sectors, or pieces, that differ are about to be tried: two of one, and twice as
    /// many with each further one.
    fn seeks(&mut self, differing: usize);

    /// One of them was tried.
    fn tried(&mut self);
}

/// Tells nobody.
#[derive(Clone, Copy)]
pub struct Untold;

impl SearchProgress for Untold {
    fn seeks(&mut self, _differing: usize) {}

    fn tried(&mut self) {}
}
