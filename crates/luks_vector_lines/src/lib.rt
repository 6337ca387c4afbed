//! Lines of vectors, for the programs that answer them: each line is a function and what it is given,
//! and what the program prints of it is what the function gives. What is owed stands in the program's
//! file `stdout`, so that a further vector is a line of text and no code that is proved.
//!
//! A line that is empty or begins with `#` is printed as it stands; it has the case and its source. The
//! words of another are parted by single spaces: the first is the function's name, and what follows it
//! stands above the function in the program. A malformed line ends the run, with its number.
#![tactic(auto)]

mod answers;
mod bytes;
mod functions;
mod malformed;
mod memory;
mod words;

pub use answers::{done, shown, told};
pub use bytes::bytes_of;
pub use functions::{Functions, answer_all};
pub use malformed::{Malformed, demand};
pub use memory::Memory;
pub use words::{Words, number_of};
