//! From a key and random stripes to the last stripe.

ghost use Rattle.std.specs.Prelude.{◌≡◌, ℕ, ◌+◌, ◌*◌, ◌≤◌, ◌++◌, length, replicate};
ghost use Rattle.luks_kdf.specs.KeyslotNames.{keyslot_digest, keyslot_digest_size};
ghost use Rattle.luks_kdf.specs.Splitter.{merge, mixed, split};

use luks_kdf::{KeyslotHash, xor_into};

// Writes the stripe that follows the random ones, so that all of them hold the key.
pub(crate) fn write_last_stripe(hash: KeyslotHash, last: &mut [u8], key: &[u8], random: &[u8])
    requires some_bytes { 1 ≤ length key.now }
    requires at_most_128 { length key.now ≤ 128 }
    requires last_length { length last.old ≡ length key.now }
    ensures len { length last.new ≡ length key.now }
    ensures whole { (n : ℕ) → length random.now ≡ n * length key.now
        → random.now ++ last.new
        ≡ split (keyslot_digest hash) (keyslot_digest_size hash) key.now (n + 1) random.now }
    ensures merges_back { (n : ℕ) → length random.now ≡ n * length key.now
        → merge (keyslot_digest hash) (keyslot_digest_size hash) (length key.now) (n + 1)
        (random.now ++ last.new) ≡ key.now }
{
    last.fill(0);
    take_in_stripes(hash, last, random);
    xor_into(last, key);
    KeyslotHash::merge_undoes_split();
}

// Takes all stripes of a row into the running block, which is zeros at first.
fn take_in_stripes(hash: KeyslotHash, block: &mut [u8], row: &[u8])
    requires some_bytes { 1 ≤ length block.old }
    requires at_most_128 { length block.old ≤ 128 }
    requires zeros { block.old ≡ replicate (length block.old) 0 }
    ensures len { length block.new ≡ length block.old }
    ensures value { (n : ℕ) → length row.now ≡ n * length block.old
        → block.new ≡ mixed (keyslot_digest hash) (keyslot_digest_size hash) (length block.old) row.now n }
{
    let len = block.len();
    for i in 0..row.len() / len {
        hash.take_in(block, &row[i * len..(i + 1) * len]);
    }
}
