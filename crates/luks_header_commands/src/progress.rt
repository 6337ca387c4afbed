//! How far a command is that makes a header.
pub use luks_rebuilding::SearchProgress;
pub use luks_trials::{Progress as DerivationProgress, Tally};
use luks1_header::Luks1Common;
pub use luks1_rebuilding::trial::Progress;

/// Tells nobody.
#[derive(Clone, Copy)]
pub struct Untold;

impl Progress for Untold {
    fn tries(&mut self, _fields: &Luks1Common) {}
}

impl SearchProgress for Untold {
    fn seeks(&mut self, _differing: usize) {}

    fn tried(&mut self) {}
}

impl DerivationProgress for Untold {
    fn counts(&mut self, _tally: &Tally) {}
}
