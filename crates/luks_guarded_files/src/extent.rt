ghost use Rattle.std.specs.Prelude.{◌≡◌, ◌↔◌, ◌⊎◌, true, IsTrue};
ghost use Rattle.luks_guarded_files.specs.Extents.{HaveCommonByte, Meet, cut_extent, moved};

use crate::node::Node;
use crate::system::{Found, Kind};

/// What has bytes: a block device, or a file of another kind.
#[derive(Clone, Copy, PartialEq, Eq)]
pub enum Holder {
    /// The block device of these numbers.
    Device(Node),
    /// The file of this number in the file system of that number.
    File {
        /// The file system's number.
        system: u64,
        /// The file's number there.
        inode: u64,
    },
}

impl From<&Found> for Holder {
    fn from(found: &Found) -> Holder {
        if found.kind == Kind::Block {
            return Holder::Device(Node::of(found.device));
        }
        Holder::File {
            system: found.system,
            inode: found.inode,
        }
    }
}

/// A range of the bytes of a disk or a file.
#[derive(Clone, Copy, PartialEq, Eq)]
pub struct Extent {
    /// What has them.
    pub holder: Holder,
    /// The place of the first one.
    pub start: u64,
    /// The place behind the last one.
    pub end: u64,
    /// Whether a name stands for just these bytes; else for some of them, and it isn't told for which.
    pub is_exact: bool,
}

impl Extent {
    /// The same bytes, as those of what lies beneath, in which they stand so many bytes further on.
    pub fn moved(&self, holder: Holder, by: u64) -> Extent
        ensures { result ≡ moved self.now holder by }
    {
        Extent {
            holder,
            start: self.start.saturating_add(by),
            end: self.end.saturating_add(by),
            is_exact: self.is_exact,
        }
    }

    /// The bytes from `start` on and before `end`, both counted from the first of the range.
    pub fn cut(&self, start: u64, end: u64) -> Extent
        ensures { result ≡ cut_extent self.now start end }
    {
        Extent {
            holder: self.holder,
            start: self.start.saturating_add(start),
            end: self.end.min(self.start.saturating_add(end)),
            is_exact: self.is_exact,
        }
    }

    /// Whether both are of one disk or file and have a byte in common. Of two ranges of which neither is
    /// exact it isn't known.
    pub fn meets(&self, other: &Extent) -> bool
        ensures { IsTrue result ↔ Meet self.now other.now }
    {
        if self.holder != other.holder || !is_told(self, other) {
            return false;
        }
        has_common_byte(self, other)
    }
}

/// Whether one of the ranges is exact, so that a common byte is known to be one.
fn is_told(one: &Extent, other: &Extent) -> bool
    ensures { IsTrue result ↔ ((one.now.is_exact ≡ true) ⊎ (other.now.is_exact ≡ true)) }
{
    one.is_exact || other.is_exact
}

/// Whether some byte lies in both.
fn has_common_byte(one: &Extent, other: &Extent) -> bool
    ensures { IsTrue result ↔ HaveCommonByte one.now other.now }
{
    let at = one.start.max(other.start);
    at < one.end && at < other.end
}
