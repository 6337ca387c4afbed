//! HMAC (RFC 2104).

ghost use Rattle.std.specs.Prelude.{◌≡◌, ℕ, ◌≤◌, List, ◌++◌, length, map, bit_xor};
ghost use Rattle.luks_kdf.specs.Derivation.{HoldKey, block_key, first_turn, hmac, inner_block, outer_block};

use crate::hash::HashFn;

// The two states from which each HMAC under one key starts.
#[derive(Drop)]
pub(crate) struct Keyed<H: HashFn> {
    inner: H,
    outer: H,
}

impl<H: HashFn> Keyed<H> {
    pub(crate) fn new(key: &[u8]) -> Keyed<H>
        ensures { HoldKey H.holds H.digest H.BLOCK result.inner result.outer key.now }
    {
        let mut buffer = [0u8; 128];
        let block = &mut buffer[..H::BLOCK];
        fill_block_key::<H>(block, key);
        Keyed::of_block(block)
    }

    // Under the key that the block is made of.
    pub(crate) fn of_block(block: &[u8]) -> Keyed<H>
        requires { length block.now ≤ 128 }
        ensures { (key : List ℕ) → block.now ≡ block_key H.digest H.BLOCK key
            → HoldKey H.holds H.digest H.BLOCK result.inner result.outer key }
    {
        let inner = padded_start(block, 0x36);
        let outer = padded_start(block, 0x5C);
        Keyed { inner, outer }
    }

    // Ends an HMAC whose inner state has taken in its message.
    pub(crate) fn close(&self, inner: H, out: &mut [u8])
        requires { length out.old ≡ H.LEN }
        ensures { (key m : List ℕ)
            → H.holds inner (inner_block H.digest H.BLOCK key ++ m)
            → H.holds self.now.outer (outer_block H.digest H.BLOCK key)
            → out.new ≡ hmac H.digest H.BLOCK key m }
    {
        inner.finish(out);
        let mut outer = self.outer.fork();
        outer.feed(out);
        outer.finish(out);
    }

    // The HMAC of a message and a number in 4 bytes, high byte first.
    pub(crate) fn tag_numbered(&self, out: &mut [u8], message: &[u8], number: u32)
        requires { length out.old ≡ H.LEN }
        ensures { (key : List ℕ)
            → HoldKey H.holds H.digest H.BLOCK self.now.inner self.now.outer key
            → out.new ≡ first_turn (hmac H.digest H.BLOCK key) message.now number }
    {
        let mut inner = self.inner.fork();
        inner.feed(message);
        inner.feed(&number.to_be_bytes());
        self.close(inner, out);
    }

    // The HMAC of what `out` holds.
    pub(crate) fn retag(&self, out: &mut [u8])
        requires { length out.old ≡ H.LEN }
        ensures { (key : List ℕ)
            → HoldKey H.holds H.digest H.BLOCK self.now.inner self.now.outer key
            → out.new ≡ hmac H.digest H.BLOCK key out.old }
    {
        let mut inner = self.inner.fork();
        inner.feed(out);
        self.close(inner, out);
    }
}

// The key as one block: hashed if it is longer than a block, then zeros.
pub(crate) fn fill_block_key<H: HashFn>(block: &mut [u8], key: &[u8])
    requires { length block.old ≡ H.BLOCK }
    ensures { block.new ≡ block_key H.digest H.BLOCK key.now }
{
    block.fill(0);
    if key.len() > H::BLOCK {
        let mut state = H::start();
        state.feed(key);
        state.finish(&mut block[..H::LEN]);
    } else {
        block[..key.len()].copy_from_slice(key);
    }
}

// The state that has taken in a block with each byte xored with `pad`.
fn padded_start<H: HashFn>(block: &[u8], pad: u8) -> H
    requires { length block.now ≤ 128 }
    ensures { H.holds result (map (bit_xor pad) block.now) }
{
    let mut buffer = [0u8; 128];
    let padded = &mut buffer[..block.len()];
    for i in 0..block.len() {
        padded[i] = pad ^ block[i];
    }
    let mut state = H::start();
    state.feed(padded);
    state
}

/// Writes the HMAC of `message` under `key`, any bytes, into `out`, which has the length of a
/// digest (RFC 2104).
pub fn hmac<H: HashFn>(out: &mut [u8], key: &[u8], message: &[u8])
    requires { length out.old ≡ H.LEN }
    ensures { out.new ≡ hmac H.digest H.BLOCK key.now message.now }
{
    let keyed = Keyed::<H>::new(key);
    let mut inner = keyed.inner.fork();
    inner.feed(message);
    keyed.close(inner, out);
}
