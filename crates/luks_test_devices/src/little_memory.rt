//! Work that is refused memory at one place after another.
use crate::memory::{BLOCKS, TakenMemory};
use std::alloc::{AllocError, Global};

/// How work ended.
#[derive(Clone, Copy, PartialEq, Eq)]
pub enum End {
    Done,
    /// It told that memory was refused, and no byte has changed.
    Memory,
    Other,
}

/// What is tried with little memory.
pub trait Work {
    /// Does it, and answers how it ended.
    fn end(&mut self, alloc: Global) -> End;
}

/// How the work ended, and how many blocks had to be given back until then: with all memory taken, and
/// given back in blocks of 256 bytes, it is refused memory at one place after another. It is tried
/// until it ends otherwise.
pub fn ends_with_little_memory<W: Work>(
    alloc: Global,
    work: &mut W,
) -> Result<(End, usize), AllocError> {
    let mut taken = TakenMemory::take(alloc)?;
    let mut end = End::Memory;
    let mut given = 0;
    for turn in 0..BLOCKS {
        end = work.end(alloc);
        given = turn;
        if end != End::Memory {
            break;
        }
        taken.give_back();
    }
    drop(taken);
    Ok((end, given))
}
