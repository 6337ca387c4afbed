//! What is done by a hash function, whichever it is: written once, so that a name only chooses.

ghost use Rattle.std.specs.Prelude.{◌≡◌, ◌≤◌, ℕ, List, length, ⊤};
ghost use Rattle.luks_kdf.specs.Derivation.{hmac, pbkdf2};
ghost use Rattle.luks_kdf.specs.Splitter.{CanSplit, Splits, CanMerge, Merges, TakesIn};

use crate::hash::HashFn;
use crate::{derive, keyed, merger, running_block, splitter};

// Work that is done by a hash function, and may write into `out`. Its members take the function,
// the length of a digest, the length of a block, and what `out` holds before and after.
pub(crate) trait HashWork {
    type Answer;

    ghost fits: { Self → ℕ → List ℕ → Type 0 };

    ghost gives: { Self → (List ℕ → List ℕ) → ℕ → ℕ → List ℕ → List ℕ → Self.Answer → Type 0 };

    fn run<H: HashFn>(self, out: &mut [u8]) -> Self::Answer
        requires { fits self H.LEN out.old }
        ensures { gives self H.digest H.LEN H.BLOCK out.old out.new result };
}

// The length of a digest.
#[derive(Drop)]
pub(crate) struct DigestLen;

impl HashWork for DigestLen {
    type Answer = usize;

    ghost fits = { λ w size out. ⊤ };

    ghost gives = { λ w hash size block old new answer. answer ≡ size };

    fn run<H: HashFn>(self, _out: &mut [u8]) -> usize {
        H::LEN
    }
}

// HMAC of the message under the key.
#[derive(Drop)]
pub(crate) struct Hmac<'a> {
    pub(crate) key: &'a [u8],
    pub(crate) message: &'a [u8],
}

impl HashWork for Hmac<'_> {
    type Answer = ();

    ghost fits = { λ w size out. length out ≡ size };

    ghost gives = { λ w hash size block old new answer.
        new ≡ hmac hash block w.key.now w.message.now };

    fn run<H: HashFn>(self, out: &mut [u8]) {
        keyed::hmac::<H>(out, self.key, self.message);
    }
}

// PBKDF2 of the password and the salt.
#[derive(Drop)]
pub(crate) struct Pbkdf2<'a> {
    pub(crate) password: &'a [u8],
    pub(crate) salt: &'a [u8],
    pub(crate) iterations: u32,
}

impl HashWork for Pbkdf2<'_> {
    type Answer = ();

    ghost fits = { λ w size out. (1 ≤ w.iterations) × (length out ≤ 128) };

    ghost gives = { λ w hash size block old new answer.
        new ≡ pbkdf2 hash block w.password.now w.salt.now w.iterations (length old) };

    fn run<H: HashFn>(self, out: &mut [u8]) {
        derive::pbkdf2::<H>(out, self.password, self.salt, self.iterations);
    }
}

// The stripes that hold the key, all but the last of them random.
#[derive(Drop)]
pub(crate) struct Split<'a> {
    pub(crate) key: &'a [u8],
    pub(crate) random: &'a [u8],
}

impl HashWork for Split<'_> {
    type Answer = ();

    ghost fits = { λ w size out. CanSplit w.key.now w.random.now out };

    ghost gives = { λ w hash size block old new answer.
        Splits hash size w.key.now w.random.now new };

    fn run<H: HashFn>(self, out: &mut [u8]) {
        splitter::split::<H>(out, self.key, self.random);
    }
}

// The key that the stripes hold.
#[derive(Drop)]
pub(crate) struct Merge<'a> {
    pub(crate) stripes: &'a [u8],
}

impl HashWork for Merge<'_> {
    type Answer = ();

    ghost fits = { λ w size out. CanMerge w.stripes.now out };

    ghost gives = { λ w hash size block old new answer.
        Merges hash size (length old) w.stripes.now new };

    fn run<H: HashFn>(self, out: &mut [u8]) {
        merger::merge::<H>(out, self.stripes);
    }
}

// The next step of the running block, by a stripe.
#[derive(Drop)]
pub(crate) struct TakeIn<'a> {
    pub(crate) stripe: &'a [u8],
}

impl HashWork for TakeIn<'_> {
    type Answer = ();

    ghost fits = { λ w size out. (length out ≤ 128) × (length w.stripe.now ≡ length out) };

    ghost gives = { λ w hash size block old new answer. TakesIn hash size old w.stripe.now new };

    fn run<H: HashFn>(self, out: &mut [u8]) {
        running_block::take_in::<H>(out, self.stripe);
    }
}
