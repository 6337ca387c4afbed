//! Taking all memory, and giving it back in small blocks. The allocator of `rt try` can't be exhausted
//! so.
ghost use Rattle.std.specs.Prelude.{◌≡◌, ◌↔◌, ◌-◌, ◌<◌, ℕ, length, IfOk, IsTrue};

use sha2::{Digest, Sha256};
use std::alloc::{AllocError, Global};
use std::marker::Model;

/// How many blocks of 256 bytes are given back in turn.
pub const BLOCKS: usize = 1024;

/// How many bytes of the stack are touched before memory is taken: it can't grow any more then.
const STACK: usize = 1 << 20;

/// How many bytes of it are touched before any test takes memory.
const ROOM: usize = 2 * STACK;

/// All memory that there was, but for the blocks of 256 bytes that were given back.
///
/// Contracts see how many blocks can still be given back; how much memory there was they can't say.
#[derive(Drop)]
pub struct TakenMemory {
    /// What is held to the end.
    held: Vec<Vec<u8>>,
    /// What is given back in turn.
    blocks: Vec<Vec<u8>>,
}

impl Model for TakenMemory {
    ghost Value = { ℕ };

    ghost view = { λ memory. length memory.blocks.items };
}

impl TakenMemory {
    /// Takes what memory there is.
    pub fn take(alloc: Global) -> Result<Self, AllocError>
        ensures { IfOk result (λ memory. memory ≡ BLOCKS) }
    {
        let more = usize::from(byte_of_the_stack());
        let mut held = Vec::with_capacity(alloc, (1 << 20) + more)?;
        let blocks = blocks_of(alloc)?;
        take_all(alloc, &mut held);
        Ok(TakenMemory { held, blocks })
    }

    /// How many blocks can still be given back.
    pub fn left(&self) -> usize
        ensures { result ≡ self.now }
    {
        self.blocks.len()
    }

    /// Gives a block back, if one is left.
    pub fn give_back(&mut self)
        ensures { self.new ≡ self.old - 1 }
    {
        let _ = self.blocks.pop();
    }
}

/// Lets the stack grow, and answers a byte for which it has to: a program that takes memory calls it first. What
/// takes memory away leaves some right below the stack, so that later it can't grow any more. Inlined it
/// would leave its bytes above what is called later.
#[inline(never)]
pub fn grown_stack() -> u8 {
    let bytes = [0x5A; ROOM];
    let mut hasher = Sha256::new();
    hasher.update(bytes.as_slice());
    let [first, ..] = hasher.finalize();
    first
}

/// A byte for which the stack has to grow, since it is worked out of as many bytes there. Inlined it
/// would leave them above what is called later.
#[inline(never)]
fn byte_of_the_stack() -> u8 {
    let bytes = [0x5A; STACK];
    let mut hasher = Sha256::new();
    hasher.update(bytes.as_slice());
    let [first, ..] = hasher.finalize();
    first
}

/// Takes what memory there is into `held`, in blocks from 2^46 bytes down to 256.
fn take_all(alloc: Global, held: &mut Vec<Vec<u8>>) {
    let mut size = 1usize << 46;
    for _ in 0..39 {
        take_blocks(alloc, held, size);
        size /= 2;
    }
}

/// Takes blocks of this size, until one is refused.
fn take_blocks(alloc: Global, held: &mut Vec<Vec<u8>>, size: usize) {
    for _ in 0..1 << 17 {
        match Vec::with_capacity(alloc, size) {
            Ok(block) => {
                if held.push(block).is_err() {
                    return;
                }
            }
            Err(_) => return,
        }
    }
}

/// Blocks of 256 bytes.
fn blocks_of(alloc: Global) -> Result<Vec<Vec<u8>>, AllocError>
    ensures { IfOk result (λ blocks. length blocks.items ≡ BLOCKS) }
{
    let mut blocks: Vec<Vec<u8>> = Vec::with_capacity(alloc, BLOCKS)?;
    for _ in 0..BLOCKS {
        blocks.push(Vec::with_capacity(alloc, 256)?)?;
    }
    Ok(blocks)
}
