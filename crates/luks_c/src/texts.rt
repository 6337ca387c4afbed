//! What is said of a number.
ghost use Rattle.std.specs.Prelude.{◌≡◌, drop, length, IfSome};
ghost use Rattle.luks_explain.specs.Names.{name_of};
ghost use Rattle.luks_c_answers.specs.Buffers.{filled};
ghost use Rattle.luks_c_answers.specs.Numbers.{fault_numbered};

use luks_c_answers::{fill_front, number_name, number_text};

/// Puts the name of what the number says into the buffer, as far as it fits, and answers how many bytes
/// it has; 0 where no call answers by this number. A fault is named as the program prints it, without
/// brackets.
#[tactic(auto, using(luks_c_answers::proofs::BufferFacts::filled_behind))]
#[unsafe(no_mangle)]
pub extern "C" fn luks_fault_name(number: u32, buffer: &mut [u8]) -> usize
    ensures named { IfSome (fault_numbered number) (λ f.
        (result ≡ length (name_of f)) × (buffer.new ≡ filled buffer.old (name_of f))) }
    ensures behind { drop result buffer.new ≡ drop result buffer.old }
{
    let name = number_name(number);
    fill_front(buffer, name.as_bytes());
    name.len()
}

/// Puts what is said of the number into the buffer, as far as it fits, and answers how many bytes it
/// has: by `part` 1 what it means, 2 where it can stand, 3 what is still safe, 4 what to try next.
/// If nothing is said, it has none. A line that goes on does so behind a newline and seven spaces.
#[tactic(auto, using(luks_c_answers::proofs::BufferFacts::filled_behind))]
#[unsafe(no_mangle)]
pub extern "C" fn luks_fault_text(number: u32, part: u32, buffer: &mut [u8]) -> usize
    ensures behind { drop result buffer.new ≡ drop result buffer.old }
{
    let text = number_text(number, part);
    fill_front(buffer, text.as_bytes());
    text.len()
}
