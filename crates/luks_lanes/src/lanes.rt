// The turns of PBKDF2 (RFC 8018, 5.2) on hash values that lie side by side.

ghost use Rattle.std.specs.Prelude.{◌≡◌, ℕ, ◌+◌, ◌-◌, ◌*◌, ◌<◌, ◌≤◌, List, length, map, bit_xor};
ghost use Rattle.luks_lanes.specs.Turns.{HoldKey, block_at, hmac, turns_xored, xor_bytes};

use crate::bytes::xor_with;

// Hash values side by side, one in each lane: their words, which no turn takes apart into bytes.
pub(crate) trait Lanes: Copy {
    // How many lanes there are.
    ghost COUNT: { ℕ };

    // The length of a digest in bytes.
    ghost LEN: { ℕ };

    // The length of the blocks that the hash works on, in bytes.
    ghost BLOCK: { ℕ };

    ghost digest: { List ℕ → List ℕ };

    // The bytes of the hash value in a lane.
    ghost bytes: { ℕ → Self → List ℕ };

    // Each lane has taken in this block alone.
    ghost has_taken: { Self → List ℕ → Type 0 };

    // The values after one block, the same in each lane.
    fn of_block(block: &[u8]) -> Self
        requires { length block.now ≡ BLOCK }
        ensures { has_taken result block.now };

    // The hash values of a row. A lane for which the row has no value has any.
    fn load(row: &[u8]) -> Self
        ensures { (j : ℕ) → j < COUNT → j * LEN + LEN ≤ length row.now
            → bytes j result ≡ block_at LEN row.now j };

    // Writes as many of the hash values as the row has room for.
    fn store(&self, row: &mut [u8])
        ensures { (j : ℕ) → j < COUNT → j * LEN + LEN ≤ length row.old
            → block_at LEN row.new j ≡ bytes j self.now };

    // HMAC of each value's bytes, from the values after the key's block under the two pads.
    fn tagged(&self, inner: &Self, outer: &Self) -> Self
        ensures { (key : List ℕ) (j : ℕ) → j < COUNT → length key ≡ BLOCK
            → HoldKey has_taken inner.now outer.now key
            → bytes j result ≡ hmac digest key (bytes j self.now) };

    fn xor(&self, other: &Self) -> Self
        ensures { (j : ℕ) → j < COUNT → bytes j result ≡ xor_bytes (bytes j self.now) (bytes j other.now) };

    ghost block_in_128: { BLOCK ≤ 128 };
}

// What each HMAC under one key starts from.
#[derive(Drop)]
pub(crate) struct Keyed<L: Lanes> {
    inner: L,
    outer: L,
}

impl<L: Lanes> Keyed<L> {
    // Under a key that is a whole block.
    pub(crate) fn new(key: &[u8]) -> Keyed<L>
        requires { length key.now ≡ L.BLOCK }
        ensures { HoldKey L.has_taken result.inner result.outer key.now }
    {
        let inner = padded::<L>(key, 0x36);
        let outer = padded::<L>(key, 0x5C);
        Keyed { inner, outer }
    }

    // Runs the turns on a row of blocks, no more than there are lanes, which hold their first turns.
    pub(crate) fn run(&self, row: &mut [u8], iterations: u32)
        requires { 1 ≤ iterations }
        ensures { (key : List ℕ) (j : ℕ) → j < L.COUNT → j * L.LEN + L.LEN ≤ length row.old
            → length key ≡ L.BLOCK → HoldKey L.has_taken self.now.inner self.now.outer key
            → block_at L.LEN row.new j
            ≡ turns_xored (hmac L.digest key) (block_at L.LEN row.old j) (iterations - 1) }
    {
        let mut turn = L::load(row);
        let mut block = turn;
        for count in 1..iterations {
            turn = turn.tagged(&self.inner, &self.outer);
            block = block.xor(&turn);
        }
        block.store(row);
    }
}

// The values after the key's block, each byte of it xored with `pad` (RFC 2104, 2).
fn padded<L: Lanes>(key: &[u8], pad: u8) -> L
    requires { length key.now ≡ L.BLOCK }
    ensures { L.has_taken result (map (bit_xor pad) key.now) }
{
    let mut buffer = [0; 128];
    let block = &mut buffer[..key.len()];
    xor_with(block, key, pad);
    L::of_block(block)
}
