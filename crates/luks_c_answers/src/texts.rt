//! What is said of a number.
ghost use Rattle.std.specs.Prelude.{◌≡◌, ◌≢◌, ◌<◌, [], IfSome, None};
ghost use Rattle.luks_explain.specs.Names.{name_of};
ghost use Rattle.luks_c_answers.specs.Numbers.{fault_numbered};

use crate::numbers::fault_of;

/// The name of what the number says: of a fault as the program prints it, without brackets. It has no
/// byte where no call answers by this number.
pub fn number_name(number: u32) -> &'static str
    ensures { IfSome (fault_numbered number) (λ f. result.now ≡ name_of f) }
{
    match fault_of(number) {
        Some(fault) => fault.name(),
        None => other_name(number),
    }
}

/// What is said of the number: by `part` 1 what it means, 2 where it can stand, 3 what is still safe, 4
/// what to try next. If nothing is said, it has no byte: by another part, and by the last three of a
/// number that is no fault's.
pub fn number_text(number: u32, part: u32) -> &'static str
    ensures none { part ≡ 0 → result.now ≡ [] }
    ensures behind { 4 < part → result.now ≡ [] }
    ensures other { fault_numbered number ≡ None → part ≢ 1 → result.now ≡ [] }
{
    match fault_of(number) {
        Some(fault) => {
            let said = fault.explanation();
            match part {
                1 => said.means,
                2 => said.place,
                3 => said.safe,
                4 => said.next,
                _ => "",
            }
        }
        None if part == 1 => other_meaning(number),
        None => "",
    }
}

/// The name of a number that is no fault's.
fn other_name(number: u32) -> &'static str {
    match number {
        0 => "Done",
        101 => "Usage",
        102 => "Beyond",
        103 => "Memory",
        104 => "Device",
        105 => "Shut",
        106 => "Room",
        107 => "Appends",
        108 => "ReadOnly",
        109 => "Direct",
        110 => "Stopped",
        111 => "Busy",
        _ => "",
    }
}

/// What such a number says.
fn other_meaning(number: u32) -> &'static str {
    match number {
        0 => "done",
        101 => "an argument that can't be",
        102 => "another range of the volume has to be given",
        103 => "memory was refused",
        104 => "a call of the device failed",
        105 => "the passphrase opens no keyslot that was tried",
        106 => "a buffer of the caller's is too short",
        107 => "the descriptor appends (O_APPEND): its writes would go to the file's end",
        108 => "the descriptor isn't open for writing",
        109 => "the descriptor is open for direct calls (O_DIRECT)",
        110 => "the caller said to stop",
        111 => "another program holds the volume's lock",
        _ => "",
    }
}
