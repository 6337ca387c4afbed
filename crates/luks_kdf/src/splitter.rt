//! Splitting a key into stripes (LUKS1 On-Disk Format 1.2.3, 2.4).

ghost use Rattle.std.specs.Prelude.{◌≡◌, ℕ, ◌+◌, ◌*◌, ◌≤◌, List, ◌++◌, length};
ghost use Rattle.luks_kdf.specs.Splitter.{CanSplit, IsStart, Splits, TakesIn, UndoesSplit, merge, mixed, split};
ghost use Rattle.luks_kdf.specs.Xor.{xor_bytes};

use crate::hash::HashFn;
use crate::running_block::RunningBlock;
use std::marker::Model;

/// Splits a key into stripes, all but the last of which are random bytes that come one stripe at a
/// time (LUKS1 On-Disk Format 1.2.3, 2.4). A contract sees it as the running block, as it does a
/// `Merger`.
#[derive(Drop)]
pub struct Splitter<H: HashFn> {
    running: RunningBlock<H>,
}

impl<H: HashFn> Model for Splitter<H> {
    ghost Value = { List ℕ };

    ghost view = { λ s. s.running };
}

impl<H: HashFn> Splitter<H> {
    /// Before the first stripe of a key of `key_len` bytes, 1 to 128: `d_0`.
    pub fn new(key_len: usize) -> Splitter<H>
        requires some_bytes { 1 ≤ key_len }
        requires at_most_128 { key_len ≤ 128 }
        ensures { IsStart H.digest H.LEN key_len result }
    {
        Splitter {
            running: RunningBlock::new(key_len),
        }
    }

    /// Takes in the next stripe of random bytes, as long as the key. From `d_i` this makes
    /// `d_(i+1)`.
    pub fn feed(&mut self, next: &[u8])
        requires { length next.now ≡ length self.old }
        ensures { TakesIn H.digest H.LEN self.old next.now self.new }
    {
        self.running.take_in(next);
    }

    /// Writes the last stripe, the one with which the stripes hold the key; it is as long as the key.
    pub fn finish(self, last: &mut [u8], key: &[u8])
        requires last_length { length last.old ≡ length self }
        requires key_length { length key.now ≡ length self }
        ensures value { last.new ≡ xor_bytes self key.now }

        // After as many stripes as the random bytes make.
        ensures whole { (i : ℕ) (random : List ℕ)
            → self ≡ mixed H.digest H.LEN (length key.now) random i
            → random ++ last.new ≡ split H.digest H.LEN key.now (i + 1) random }
        ensures merges_back { (i : ℕ) (random : List ℕ)
            → self ≡ mixed H.digest H.LEN (length key.now) random i
            → length random ≡ i * length key.now
            → merge H.digest H.LEN (length key.now) (i + 1) (random ++ last.new) ≡ key.now }
    {
        self.running.xor_with(last, key);
    }
}

/// Writes the stripes into which the key, 1 to 128 bytes, is split: they lie in a row, each as long
/// as the key, and all but the last are the random bytes (LUKS1 On-Disk Format 1.2.3, 2.4).
pub fn split<H: HashFn>(out: &mut [u8], key: &[u8], random: &[u8])
    requires { CanSplit key.now random.now out.old }
    ensures { Splits H.digest H.LEN key.now random.now out.new }
{
    let len = key.len();
    let count = random.len() / len;
    let mut splitter = Splitter::<H>::new(len);
    for i in 0..count {
        splitter.feed(&random[i * len..(i + 1) * len]);
    }
    out[..random.len()].copy_from_slice(random);
    splitter.finish(&mut out[random.len()..], key);
}

/// Does nothing: its contract is the law that merging undoes splitting, for every key and all
/// random stripes, whether they were ever written or not.
pub fn merge_undoes_split<H: HashFn>()
    ensures { UndoesSplit H.digest H.LEN }
{}
