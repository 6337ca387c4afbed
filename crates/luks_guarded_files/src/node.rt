ghost use Rattle.std.specs.Prelude.{◌≡◌, ◌<◌, ◌^◌};
ghost use Rattle.luks_guarded_files.specs.Node.{IsNumberOf};

use std::fmt;

/// The numbers of a block device.
#[derive(Clone, Copy, PartialEq, Eq)]
pub struct Node {
    /// The driver's number.
    pub major: u32,
    /// The number among the driver's devices.
    pub minor: u32,
}

impl Node {
    /// The numbers that Linux keeps in this one, as `rdev` of a file's metadata.
    pub fn of(number: u64) -> Node
        ensures { IsNumberOf result number }
    {
        Node {
            major: ((number / 0x100) % 0x1000 + number / 0x1000_0000_0000 * 0x1000) as u32,
            minor: (number % 0x100 + (number / 0x10_0000) % 0x100_0000 * 0x100) as u32,
        }
    }
}

/// The name of the file that cryptsetup locks for the device.
impl fmt::Display for Node {
    ghost use Rattle.std.specs.Prelude.{Some};
    ghost use Rattle.luks_guarded_files.specs.Node.{name_of};

    ghost output = { λ node. Some (name_of node) };

    fn fmt<W: fmt::Write>(&self, f: &mut fmt::Formatter<W>) -> fmt::Result {
        write!(f, "L_{}:{}", self.major, self.minor)
    }
}
