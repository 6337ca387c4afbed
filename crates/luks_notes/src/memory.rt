//! What is said of keyslots that derive by Argon2, and of the memory that they take.
ghost use Rattle.std.specs.Prelude.{◌≡◌, ◌≤◌, ◌<◌, ◌+◌, ◌/◌, None, Some, IfSome, IsOk, IsTrue, OnOk};
ghost use Rattle.std.specs.Io.KnownBytes.{Appends};
ghost use Rattle.luks_reading.specs.Header.{IsAcceptedHeader};
ghost use Rattle.luks_notes.specs.MemoryNotes.{CanBeAllowed, DerivesBy, IsMemoryNote, NeverDerives};
ghost use Rattle.luks_notes.specs.MemoryNotes.{allowing_text, derived_of, derived_text, mib_of, refused_line, wanting_line};

use luks_reading::{Allowed, Cost, Header, refused_slot};
use std::fmt;
use std::io::{self, Write};

/// The most MiB that a command line allows.
const MOST_MIB: u64 = 4194303;

/// How a keyslot derives by Argon2, and whether it is refused.
#[derive(Clone, Copy)]
pub struct MemoryNote {
    /// The keyslot.
    slot: u8,
    /// The kind, as the header writes it.
    kind: &'static str,
    /// The memory that it takes, in KiB.
    kib: u32,
    /// It takes more than is allowed, and its passphrase is tried where that much is, and ciphers and
    /// hashes of older disks are accepted.
    wants_more: bool,
    /// It isn't refused where so much is allowed.
    is_tried: bool,
}

/// A keyslot's derivation, as it is printed.
#[derive(Clone, Copy)]
struct Derived {
    /// The keyslot.
    slot: u8,
    /// The kind.
    kind: &'static str,
}

impl fmt::Display for Derived {
    ghost output = { λ derived. Some (derived_text derived) };

    fn fmt<W: fmt::Write>(&self, f: &mut fmt::Formatter<W>) -> fmt::Result {
        let (slot, kind) = (self.slot, self.kind);
        write!(f, "keyslot {slot} is derived by {kind}")
    }
}

/// How many MiB it takes, and how a command line allows them.
#[derive(Clone, Copy)]
struct Allowing {
    mib: u64,
}

impl fmt::Display for Allowing {
    ghost output = { λ allowing. Some (allowing_text allowing.mib) };

    fn fmt<W: fmt::Write>(&self, f: &mut fmt::Formatter<W>) -> fmt::Result {
        let mib = self.mib;
        write!(f, "{mib} MiB of memory: --memory {mib} allows it")
    }
}

impl MemoryNote {
    /// The memory that it takes in MiB, rounded up.
    fn mib(&self) -> u64
        ensures { result ≡ mib_of self.now.kib }
    {
        (u64::from(self.kib) + 1023) / 1024
    }

    /// Its derivation.
    fn derived(&self) -> Derived
        ensures { result ≡ derived_of self.now }
    {
        Derived {
            slot: self.slot,
            kind: self.kind,
        }
    }

    /// Says of a keyslot that was refused how much would have to be allowed so that its passphrase is
    /// tried.
    pub fn say_refused<E: Write>(&self, err: &mut E) -> io::Result<()>
        ensures said { CanBeAllowed self.now → OnOk result (Appends (E.contents err.old)
            (E.contents err.new) (refused_line (derived_text (derived_of self.now)) (mib_of self.now.kib))) }
        ensures unsaid { (CanBeAllowed self.now → ⊥) → (err.new ≡ err.old) × IsOk result }
    {
        let mib = self.mib();
        if self.wants_more && mib <= MOST_MIB {
            return note_refusal(self.derived(), mib, err);
        }
        Ok(())
    }

    /// Says of a keyslot how much memory it asked for, where memory was refused.
    pub fn say_wanting<E: Write>(&self, err: &mut E) -> io::Result<()>
        ensures said { IsTrue self.now.is_tried → OnOk result (Appends (E.contents err.old)
            (E.contents err.new) (wanting_line (derived_text (derived_of self.now)) (mib_of self.now.kib))) }
        ensures unsaid { (IsTrue self.now.is_tried → ⊥) → (err.new ≡ err.old) × IsOk result }
    {
        if self.is_tried {
            return note_want(self.derived(), self.mib(), err);
        }
        Ok(())
    }
}

/// Says that a command line would have to allow so many MiB.
fn note_refusal<E: Write>(derived: Derived, mib: u64, err: &mut E) -> io::Result<()>
    ensures { OnOk result (Appends (E.contents err.old) (E.contents err.new)
        (refused_line (derived_text derived) mib)) }
{
    let allowing = Allowing { mib };
    writeln!(err, "luks: {derived}, which takes {allowing}")
}

/// Says that so many MiB were asked for.
fn note_want<E: Write>(derived: Derived, mib: u64, err: &mut E) -> io::Result<()>
    ensures { OnOk result (Appends (E.contents err.old) (E.contents err.new)
        (wanting_line (derived_text derived) mib)) }
{
    writeln!(err, "luks: {derived}, which asks for {mib} MiB of memory")
}

/// How the keyslot `n` of a volume of `total` bytes derives by Argon2, where so much is allowed;
/// None where the keyslot isn't there, or derives otherwise.
pub fn memory_note(header: &Header, n: u8, total: u64, allowed: Allowed) -> Option<MemoryNote>
    requires { IsAcceptedHeader header.now }
    ensures some { IfSome result (IsMemoryNote header.now n total allowed) }
    ensures none { result ≡ None → NeverDerives header.now n }
{
    let argon2 = argon2_of(header, n)?;
    let wanted = Allowed {
        memory: argon2.kib,
        older: true,
    };
    let wants_more = argon2.kib > allowed.memory
        && refused_slot(header, n, total, wanted).is_none();
    let is_tried = refused_slot(header, n, total, allowed).is_none();
    Some(MemoryNote {
        slot: n,
        kind: argon2.kind,
        kib: argon2.kib,
        wants_more,
        is_tried,
    })
}

/// How a keyslot derives by Argon2.
#[derive(Clone, Copy)]
struct ByArgon2 {
    kind: &'static str,
    kib: u32,
}

/// How the keyslot `n` derives by Argon2, or None where it isn't there or derives otherwise.
fn argon2_of(header: &Header, n: u8) -> Option<ByArgon2>
    requires { IsAcceptedHeader header.now }
    ensures some { IfSome result (λ by_. DerivesBy header.now n by_.kind.now by_.kib) }
    ensures none { result ≡ None → NeverDerives header.now n }
{
    let Header::Luks2(copy) = header else {
        return None;
    };
    if n > 31 {
        return None;
    }
    match copy.meta.keyslot(n)?.kdf.cost {
        Cost::Pbkdf2(_) => None,
        Cost::Argon2i(costs) => Some(ByArgon2 {
            kind: "argon2i",
            kib: costs.memory,
        }),
        Cost::Argon2id(costs) => Some(ByArgon2 {
            kind: "argon2id",
            kib: costs.memory,
        }),
    }
}
