//! The rows of the tables.

use luks_edit::Edit;

/// An edit, how many random bytes it takes, none where it is refused before it takes any, and what is
/// answered.
pub(crate) type Row = (Edit<'static>, Option<usize>, &'static str);
