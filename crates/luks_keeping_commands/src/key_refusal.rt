//! Why no key is opened.

use luks_commands::UnderwayRefusal;
use luks_reading::OpenFault;

/// Why no key is opened.
#[derive(Clone, Copy, Drop)]
pub enum KeyRefusal {
    /// What `open` answers of any volume.
    Open(OpenFault),
    /// Something is under way in the metadata.
    Underway(UnderwayRefusal),
}
