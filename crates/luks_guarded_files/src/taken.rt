ghost use Rattle.std.specs.Prelude.{◌≡◌, ◌↔◌, IsSomeAnd, IsTrue};
ghost use Rattle.luks_guarded_files.specs.Kinds.{HoldsSomething};

use crate::system::System;

/// Whether the file of this name holds something, so that no backup is written over it unasked. One that
/// isn't there, or can't be looked at, holds nothing.
pub fn holds_something<S: System>(system: &mut S, path: &str) -> bool
    ensures answers { S.answers system.new ≡ S.answers system.old }
    ensures held { IsTrue result ↔ IsSomeAnd (S.found system.new) HoldsSomething }
{
    match system.stat(path) {
        Ok(found) => found.holds_something(),
        Err(_) => false,
    }
}
