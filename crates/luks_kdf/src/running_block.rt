//! The running block of the anti-forensic splitter, which splitting and merging share.

ghost use Rattle.std.specs.Prelude.{◌≡◌, ◌≤◌, List, ℕ, length, take};
ghost use Rattle.luks_kdf.specs.Splitter.{IsStart, TakesIn};
ghost use Rattle.luks_kdf.specs.Xor.{xor_bytes};

use crate::diffuse::diffuse;
use crate::hash::HashFn;
use crate::xor::xor_into;
use std::marker::{Model, PhantomData};

// After the first i stripes it's the standard's d_i. A contract sees the block's bytes.
#[derive(Drop)]
pub(crate) struct RunningBlock<H: HashFn> {
    block: [u8; 128],
    len: usize,
    hash: PhantomData<H>,
}

impl<H: HashFn> Model for RunningBlock<H> {
    ghost Value = { List ℕ };

    ghost view = { λ r. take r.len r.block };

    ghost invariant = { λ r. r.len ≤ 128 };
}

impl<H: HashFn> RunningBlock<H> {
    // d_0, of `len` bytes.
    pub(crate) fn new(len: usize) -> RunningBlock<H>
        requires { len ≤ 128 }
        ensures { IsStart H.digest H.LEN len result }
    {
        RunningBlock {
            block: [0; 128],
            len,
            hash: PhantomData,
        }
    }

    // Takes in the next stripe.
    pub(crate) fn take_in(&mut self, stripe: &[u8])
        requires { length stripe.now ≡ length self.old }
        ensures { TakesIn H.digest H.LEN self.old stripe.now self.new }
    {
        take_in::<H>(&mut self.block[..self.len], stripe);
    }

    // Writes the block xored with `mask`.
    pub(crate) fn xor_with(self, out: &mut [u8], mask: &[u8])
        requires out_length { length out.old ≡ length self }
        requires mask_length { length mask.now ≡ length self }
        ensures { out.new ≡ xor_bytes self mask.now }
    {
        out.copy_from_slice(&self.block[..self.len]);
        xor_into(out, mask);
    }
}

// The step from `d_i` to `d_(i+1)`: xors the stripe into the block, and diffuses that.
pub(crate) fn take_in<H: HashFn>(block: &mut [u8], stripe: &[u8])
    requires at_most_128 { length block.old ≤ 128 }
    requires stripe_length { length stripe.now ≡ length block.old }
    ensures { TakesIn H.digest H.LEN block.old stripe.now block.new }
{
    xor_into(block, stripe);
    diffuse::<H>(block);
}
