//! What the program `luks` does: reads its command line, has the files opened that this names, runs the command
//! over them, prints its answer, and says on standard error what is noted.
//!
//! It is generic over the runtime: a test lends it one of its own, over real files, that sees what is opened
//! and printed.
#![tactic(auto)]

mod hints;
mod new_passphrase;
mod outcome;
mod progress;
mod refusals;
mod running;
mod searching;
mod thorough;
mod told;
mod tried;
mod under_way;
mod written_over;

pub use running::run;

/// The exit status where what was asked for is told.
const TOLD: u8 = 0;

/// The exit status after a command line that can't be read.
const USAGE: u8 = 2;

/// The exit status where memory is refused, a file can't be read, or the output can't be written.
const FAULT: u8 = 4;
