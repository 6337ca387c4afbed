//! What is said of keyslots that weren't tried where something is under way: why, and what has them tried.

use luks_reading::{Allowed, Cost, OpenFault, luks2_plan};
use luks_slot::refusal_within;
use luks_wide_reading::{Underway, WideKeyslot, WideOpenFault};
use std::io::Write;

/// The most MiB that a command line allows.
const MOST_MIB: u64 = 4194303;

/// On what keyslots are tried: this metadata, in a volume of so many bytes, where so much is allowed.
#[derive(Clone, Copy)]
pub(crate) struct Ground<'a> {
    /// The metadata.
    pub(crate) meta: &'a Underway,
    /// The length of the volume in bytes.
    pub(crate) total: u64,
    /// What is allowed.
    pub(crate) allowed: Allowed,
}

impl<'a> Ground<'a> {
    /// The same where so much is allowed.
    fn allowing(&self, memory: u32, older: bool) -> Ground<'a> {
        Ground {
            meta: self.meta,
            total: self.total,
            allowed: Allowed { memory, older },
        }
    }
}

/// Says of the keyslot `n`, which was named, what would have it tried where it is refused, and how much memory
/// it asks for where memory was.
pub(crate) fn note_fault<E: Write>(ground: &Ground<'_>, n: u8, fault: &WideOpenFault, err: &mut E) {
    match fault {
        WideOpenFault::Open(OpenFault::Slot(_)) => note_refused(ground, n, err),
        WideOpenFault::Open(OpenFault::Memory) => note_wanting(ground, n, err),
        _ => {}
    }
}

/// Says which keyslots were passed over and why, after the passphrase opened none. Those that hold no key aren't
/// spoken of.
pub(crate) fn note_passed_over<E: Write>(ground: &Ground<'_>, err: &mut E) {
    for n in 0..32 {
        if is_unasked(ground.meta, n) {
            let _ = writeln!(err, "luks: keyslot {n} was passed over: priority 0");
        } else if let Some(fault) = refusal(ground, n) {
            let _ = writeln!(err, "luks: keyslot {n} was passed over: {fault}");
            note_refused(ground, n, err);
        }
    }
}

/// Says of each keyslot that is tried where none is named how much memory it asks for.
pub(crate) fn note_all_wanting<E: Write>(ground: &Ground<'_>, err: &mut E) {
    for n in 0..32 {
        if !is_unasked(ground.meta, n) {
            note_wanting(ground, n, err);
        }
    }
}

/// Says of the keyslot, which is refused, how much would have to be allowed so that its passphrase is tried.
fn note_refused<E: Write>(ground: &Ground<'_>, n: u8, err: &mut E) {
    if let Some(argon2) = argon2_of(ground.meta, n) {
        note_memory(ground, n, argon2, err);
    }
    let newer = ground.allowing(u32::MAX, false);
    let older = ground.allowing(u32::MAX, true);
    if !ground.allowed.older && refusal(&newer, n).is_some() && refusal(&older, n).is_none() {
        let _ = writeln!(
            err,
            "luks: keyslot {n} is of an older disk: --older allows it"
        );
    }
}

/// Says how much memory would have to be allowed, where the keyslot takes more than is.
fn note_memory<E: Write>(ground: &Ground<'_>, n: u8, argon2: ByArgon2, err: &mut E) {
    let ByArgon2 { kind, kib } = argon2;
    let mib = mib_of(kib);
    let wanted = ground.allowing(kib, true);
    if kib > ground.allowed.memory && mib <= MOST_MIB && refusal(&wanted, n).is_none() {
        let _ = writeln!(
            err,
            "luks: keyslot {n} is derived by {kind}, which takes {mib} MiB of memory: --memory {mib} allows it"
        );
    }
}

/// Says how much memory the keyslot asks for, where it isn't refused.
fn note_wanting<E: Write>(ground: &Ground<'_>, n: u8, err: &mut E) {
    if let Some(ByArgon2 { kind, kib }) = argon2_of(ground.meta, n) {
        if refusal(ground, n).is_none() {
            let mib = mib_of(kib);
            let _ = writeln!(
                err,
                "luks: keyslot {n} is derived by {kind}, which asks for {mib} MiB of memory"
            );
        }
    }
}

/// So many KiB in MiB, rounded up.
fn mib_of(kib: u32) -> u64 {
    (u64::from(kib) + 1023) / 1024
}

/// How a keyslot derives by Argon2.
#[derive(Clone, Copy)]
struct ByArgon2 {
    /// The kind.
    kind: &'static str,
    /// The memory that it takes, in KiB.
    kib: u32,
}

fn argon2_of(meta: &Underway, n: u8) -> Option<ByArgon2> {
    let Some(WideKeyslot::Luks2(keyslot)) = meta.keyslot(n) else {
        return None;
    };
    match keyslot.kdf.cost {
        Cost::Pbkdf2(_) => None,
        Cost::Argon2i(costs) => Some(ByArgon2 {
            kind: "argon2i",
            kib: costs.memory,
        }),
        Cost::Argon2id(costs) => Some(ByArgon2 {
            kind: "argon2id",
            kib: costs.memory,
        }),
    }
}

/// Whether the keyslot holds a key, and is tried only where it is named.
fn is_unasked(meta: &Underway, n: u8) -> bool {
    match meta.keyslot(n) {
        Some(WideKeyslot::Luks2(keyslot)) => keyslot.priority == Some(0),
        _ => false,
    }
}

/// Why the keyslot can't be tried, if it holds a key.
fn refusal(ground: &Ground<'_>, n: u8) -> Option<OpenFault> {
    let Some(WideKeyslot::Luks2(keyslot)) = ground.meta.keyslot(n) else {
        return None;
    };
    let digest = ground.meta.digest(ground.meta.digest_of_keyslot(n)?)?;
    let plan = luks2_plan(&keyslot, &digest);
    if !plan.area.is_inside(ground.total) {
        return Some(OpenFault::Outside);
    }
    match refusal_within(&plan, ground.allowed) {
        Some(fault) => Some(OpenFault::Slot(fault)),
        None => None,
    }
}
