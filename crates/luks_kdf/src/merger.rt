//! Merging stripes into the key that they hold (LUKS1 On-Disk Format 1.2.3, 2.4).

ghost use Rattle.std.specs.Prelude.{◌≡◌, ℕ, ◌+◌, ◌*◌, ◌≤◌, List, length};
ghost use Rattle.luks_kdf.specs.Splitter.{CanMerge, IsStart, Merges, TakesIn, merge, mixed, stripe_at};
ghost use Rattle.luks_kdf.specs.Xor.{xor_bytes};

use crate::hash::HashFn;
use crate::running_block::RunningBlock;
use std::marker::Model;

/// Merges stripes that come one at a time (LUKS1 On-Disk Format 1.2.3, 2.4). A contract sees it as
/// the running block: after the first `i` stripes that is the standard's `d_i`.
#[derive(Drop)]
pub struct Merger<H: HashFn> {
    running: RunningBlock<H>,
}

impl<H: HashFn> Model for Merger<H> {
    ghost Value = { List ℕ };

    ghost view = { λ m. m.running };
}

impl<H: HashFn> Merger<H> {
    /// Before the first stripe of a key of `key_len` bytes, 1 to 128: `d_0`.
    pub fn new(key_len: usize) -> Merger<H>
        requires some_bytes { 1 ≤ key_len }
        requires at_most_128 { key_len ≤ 128 }
        ensures { IsStart H.digest H.LEN key_len result }
    {
        Merger {
            running: RunningBlock::new(key_len),
        }
    }

    /// Takes in the next stripe, which is not the last; it is as long as the key. From `d_i` this
    /// makes `d_(i+1)`.
    pub fn feed(&mut self, next: &[u8])
        requires { length next.now ≡ length self.old }
        ensures { TakesIn H.digest H.LEN self.old next.now self.new }
    {
        self.running.take_in(next);
    }

    /// Writes the key that the stripes so far and the last one hold, both as long as the key.
    pub fn finish(self, key: &mut [u8], last: &[u8])
        requires key_length { length key.old ≡ length self }
        requires last_length { length last.now ≡ length self }
        ensures value { key.new ≡ xor_bytes self last.now }
        ensures whole { (k i : ℕ) (stripes : List ℕ) → self ≡ mixed H.digest H.LEN k stripes i
            → last.now ≡ stripe_at k stripes i
            → key.new ≡ merge H.digest H.LEN k (i + 1) stripes }
    {
        self.running.xor_with(key, last);
    }
}

/// Writes the key, 1 to 128 bytes, that the stripes hold, which lie in a row and are each as long as
/// the key (LUKS1 On-Disk Format 1.2.3, 2.4).
pub fn merge<H: HashFn>(key: &mut [u8], stripes: &[u8])
    requires { CanMerge stripes.now key.old }
    ensures { Merges H.digest H.LEN (length key.old) stripes.now key.new }
{
    let len = key.len();
    let count = stripes.len() / len - 1;
    let mut merger = Merger::<H>::new(len);
    for i in 0..count {
        merger.feed(&stripes[i * len..(i + 1) * len]);
    }
    merger.finish(key, &stripes[count * len..]);
}
