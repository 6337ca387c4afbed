ghost use Rattle.std.specs.Prelude.{◌≡◌};

use crate::node::Node;
use crate::system::System;
use std::alloc::Global;

/// Whether the system lets nobody write to the block device of these numbers, as it tells in sysfs. It
/// opens such a device for writing all the same, and fails the writes. If that can't be read, it
/// isn't known to be so.
pub(crate) fn is_read_only<S: System>(alloc: Global, system: &mut S, node: Node) -> bool
    ensures { S.answers system.new ≡ S.answers system.old }
{
    let (major, minor) = (node.major, node.minor);
    match format!(in alloc; "/sys/dev/block/{major}:{minor}/ro") {
        Ok(path) => system.first_byte(path.as_str()) == Some(b'1'),
        Err(_) => false,
    }
}
