//! What is seen of an edit before it is applied.
ghost use Rattle.std.specs.Prelude.{◌≡◌, ◌+◌, ◌<◌, ◌^◌, ℕ, List, false, length, IfOk, IfErr};
ghost use Rattle.luks_area.specs.Device.{CountsFailure, IsUnchanged};
ghost use Rattle.luks_edit.specs.EditFaults.{is_edit_failure};
ghost use Rattle.luks_reading.specs.Header.{IsAcceptedHeader, IsHeader};
ghost use Rattle.luks_volume.specs.Needed.{NeedsRandom, TellsNeed};
ghost use Rattle.luks_edit_commands.specs.Editing.{IsAsked, IsMissed, IsTokenOf, IsUnseen};
ghost use Rattle.luks_edit_commands.specs.OtherUses.{is_unseen_failure, SeesBarred};

use super::asked::edit_of;
use super::older_digest::{is_older_digest, note_older_digest};
use crate::other_use::barring_use;
use luks_edit::{NewDerivation, Opener};
use luks_notes::{MemoryNote, OlderNote, memory_note, older_note};
use luks_request::Editing;
use luks_signatures::OtherUse;
use luks_volume::{
    Cost, Data, Device, DeviceFault, Edit, EditFault, Header, Luks1, edited_header,
    needed_of_header,
};
use serde_json::Value;
use std::alloc::Global;
use std::io::Write;

/// What is seen of an edit before it is applied.
#[derive(Drop)]
pub(super) struct Seen<'a> {
    /// The header that counts, which the edit is applied over.
    pub(super) header: Header,
    /// The edit that is asked for.
    pub(super) edit: Edit<'a>,
    /// How many random bytes it takes.
    pub(super) needed: u64,
    /// The keyslot that it makes, where that has fewer iterations than the one that it opens.
    pub(super) weaker: Option<Weaker>,
    /// What would have to be allowed for what opens.
    pub(super) opener: OpenerNotes,
    /// Whether it takes away the last keyslot by PBKDF2, and leaves others, by none of its own.
    pub(super) leaves_argon2: bool,
}

/// What would have to be allowed for what an edit opens, or for the volume key.
#[derive(Clone, Copy)]
pub(super) struct OpenerNotes {
    /// The keyslot, where that derives by Argon2.
    argon2: Option<MemoryNote>,
    /// The keyslot, where ciphers and hashes of older disks would have to be accepted.
    older: Option<OlderNote>,
    /// Whether it is by the volume key, and a digest that this may meet has a hash of older disks, which
    /// would have to be accepted.
    older_digest: bool,
}

/// A keyslot that is made with fewer iterations than the one that opens has.
#[derive(Clone, Copy)]
pub(super) struct Weaker {
    /// The iterations of the new keyslot.
    iterations: u32,
    /// The number of the keyslot that opens.
    opener: u8,
    /// The iterations of that one.
    opener_iterations: u32,
}

/// Why nothing is seen of an edit.
#[derive(Clone, Copy)]
pub(super) enum Unseen {
    /// The first of the faults that are seen without opening a keyslot.
    Untold(EditFault),
    /// The disk has this other use, which the edit would write over.
    Used(OtherUse),
}

impl From<EditFault> for Unseen {
    ghost use Rattle.luks_edit_commands.specs.declared.edit.seen.Unseen.{Unseen};

    ghost from_gives = { λ fault unseen. unseen ≡ Unseen.Untold fault };

    fn from(fault: EditFault) -> Unseen {
        Unseen::Untold(fault)
    }
}

impl From<DeviceFault> for Unseen {
    ghost use Rattle.luks_edit_commands.specs.declared.edit.seen.Unseen.{Unseen};
    ghost use Rattle.luks_edit.specs.declared.edit_fault.EditFault.{EditFault};

    ghost from_gives = { λ _ unseen. unseen ≡ Unseen.Untold EditFault.Device };

    fn from(_: DeviceFault) -> Unseen {
        Unseen::Untold(EditFault::Device)
    }
}

/// What is seen of the edit by the header, or why nothing is: another use of the disk is asked for
/// before what the edit names, or a keyslot is looked for. The header is read once.
pub(super) fn look_at_volume<'a, D: Device, E: Write>(
    alloc: Global,
    device: &mut D,
    editing: &Editing<'a>,
    old: &'a [u8],
    new: &'a [u8],
    token: Option<&'a Value>,
    err: &mut E,
) -> Result<Seen<'a>, Unseen>
    requires room { D.failed device.old + 1 < 2 ^ 64 }
    requires short { length old.now < 2 ^ 32 }
    requires token { IsTokenOf editing.now.request old.now token }
    ensures unchanged { IsUnchanged D.tells D.size D.bytes D.unsettled device.old device.new }
    ensures count { CountsFailure is_unseen_failure result
        (D.failed device.old) (D.failed device.new) }
    ensures accepted { IfOk result (λ seen. IsAcceptedHeader seen.header) }
    ensures read { D.tells → IfOk result (λ seen. IsHeader (D.bytes device.old) seen.header) }
    ensures asked { D.tells → IfOk result (λ seen. IsAsked (D.bytes device.old) editing.now.request
        (λ p. p ≡ old.now) (λ p. p ≡ new.now) seen.edit) }
    ensures tells { D.tells → IfOk result (λ seen.
        NeedsRandom (D.bytes device.old) editing.now.payload seen.edit seen.needed) }
    ensures unseen { D.tells → IfErr result (IsUnseen editing.now.payload
        (IsAsked (D.bytes device.old) editing.now.request (λ p. p ≡ old.now) (λ p. p ≡ new.now))
        (IsMissed editing.now.payload editing.now.request (λ p. p ≡ old.now) (D.bytes device.old))
        editing.now.over (D.bytes device.old)) }
    ensures barred { D.tells → SeesBarred editing.now.over (D.bytes device.old) result }
{
    let header = edited_header(alloc, device)?;
    if let Some(found) = barring_use(device, &header, editing.over)? {
        return Err(Unseen::Used(found));
    }
    let edit = edit_of(alloc, device, &header, editing, old, new, token, err)?;
    let needed = needed_told(&header, editing.payload, device.len(), &edit, err)?;
    let weaker = weaker_keyslot(&header, &edit);
    let opener = opener_notes(&header, device.len(), &edit);
    let leaves_argon2 = leaves_argon2(&header, &edit);
    Ok(Seen {
        header,
        edit,
        needed,
        weaker,
        opener,
        leaves_argon2,
    })
}

/// How many random bytes the edit takes of a volume of `total` bytes with this header. If that is refused,
/// and by the volume key, it says whether a hash of older disks would have to be accepted.
fn needed_told<E: Write>(
    header: &Header,
    payload: Data,
    total: u64,
    edit: &Edit<'_>,
    err: &mut E,
) -> Result<u64, EditFault>
    requires { IsAcceptedHeader header.now }
    ensures own { IfErr result (λ f. is_edit_failure f ≡ false) }
    ensures tells { (v : List ℕ) → IsHeader v header.now → length v ≡ total
        → TellsNeed payload v edit.now result }
{
    match needed_of_header(header, payload, total, edit) {
        Ok(needed) => Ok(needed),
        Err(fault) => {
            note_older_digest(&fault, is_older_digest(header, edit), err);
            Err(fault)
        }
    }
}

/// The keyslot that the edit makes, where that has fewer iterations than the one that it opens in a
/// volume with this header.
fn weaker_keyslot(header: &Header, edit: &Edit<'_>) -> Option<Weaker> {
    let (opener, iterations) = new_iterations(edit)?;
    let opener_iterations = iterations_of(header, opener)?;
    if iterations >= opener_iterations {
        return None;
    }
    Some(Weaker {
        iterations,
        opener,
        opener_iterations,
    })
}

/// The number of the keyslot that the edit opens, and the iterations of the one that it makes; none where
/// that is chosen to derive by Argon2.
fn new_iterations(edit: &Edit<'_>) -> Option<(u8, u32)> {
    let (opener, iterations, derivation) = match *edit {
        Edit::Add {
            by_,
            iterations,
            derivation,
            ..
        } => (by_, iterations, derivation),
        Edit::Change {
            slot,
            iterations,
            derivation,
            ..
        } => (slot, iterations, derivation),
        _ => return None,
    };
    match derivation {
        None => Some((opener, iterations)),
        Some(NewDerivation::Pbkdf2 { iterations }) => Some((opener, iterations)),
        Some(NewDerivation::Argon2i(_) | NewDerivation::Argon2id(_)) => None,
    }
}

/// The iterations of PBKDF2 that the keyslot `n` says; none where it isn't there, or by Argon2.
fn iterations_of(header: &Header, n: u8) -> Option<u32> {
    match header {
        Header::Luks1(bytes) => {
            let header = Luks1::read(bytes).ok()?;
            let slot = header.slots.get(usize::from(n))?;
            Some(slot.iterations)
        }
        Header::Luks2(copy) => match copy.meta.keyslot(n)?.kdf.cost {
            Cost::Pbkdf2(cost) => Some(cost.iterations),
            Cost::Argon2i(_) | Cost::Argon2id(_) => None,
        },
    }
}

/// What would have to be allowed for what the edit opens in a volume of `total` bytes with this header.
fn opener_notes(header: &Header, total: u64, edit: &Edit<'_>) -> OpenerNotes
    requires { IsAcceptedHeader header.now }
{
    OpenerNotes {
        argon2: argon2_keyslot(header, total, edit),
        older: older_keyslot(header, total, edit),
        older_digest: is_older_digest(header, edit),
    }
}

/// The number of the keyslot that the edit opens; none by the volume key.
fn opened_keyslot(edit: &Edit<'_>) -> Option<u8> {
    match edit.opener()? {
        Opener::Keyslot { slot, secret: _ } => Some(slot),
        Opener::Key(_) => None,
    }
}

/// The keyslot that the edit opens in a volume of `total` bytes with this header, where it derives by
/// Argon2.
fn argon2_keyslot(header: &Header, total: u64, edit: &Edit<'_>) -> Option<MemoryNote>
    requires { IsAcceptedHeader header.now }
{
    let slot = opened_keyslot(edit)?;
    memory_note(header, slot, total, edit.allowed())
}

/// The keyslot that the edit opens in a volume of `total` bytes with this header, where ciphers and hashes of
/// older disks would have to be accepted.
fn older_keyslot(header: &Header, total: u64, edit: &Edit<'_>) -> Option<OlderNote>
    requires { IsAcceptedHeader header.now }
{
    let slot = opened_keyslot(edit)?;
    older_note(header, slot, total, edit.allowed())
}

/// Whether the edit removes the last keyslot by PBKDF2 of a volume with this header, and leaves others: by the
/// secret of another keyslot, or by the volume key.
fn leaves_argon2(header: &Header, edit: &Edit<'_>) -> bool {
    match *edit {
        Edit::Remove { slot, .. } => {
            opened_keyslot(edit) != Some(slot)
                && iterations_of(header, slot).is_some()
                && (0..32).all(|n| n == slot || iterations_of(header, n).is_none())
                && (0..32).any(|n| is_by_argon2(header, n))
        }
        _ => false,
    }
}

/// Whether the keyslot `n` is there and derives by Argon2.
fn is_by_argon2(header: &Header, n: u8) -> bool {
    let Header::Luks2(copy) = header else {
        return false;
    };
    match copy.meta.keyslot(n) {
        Some(keyslot) => matches!(keyslot.kdf.cost, Cost::Argon2i(_) | Cost::Argon2id(_)),
        None => false,
    }
}

/// Says, before it is done, that no keyslot by PBKDF2 is left.
pub(super) fn note_leaving_argon2<E: Write>(leaves_argon2: bool, err: &mut E) {
    if leaves_argon2 {
        let _ = writeln!(
            err,
            "luks: no keyslot is left that opens by PBKDF2: each other one takes memory, which --memory allows"
        );
    }
}

/// Says of the keyslot, or the digest, that was refused by this fault what would have to be allowed, where that
/// helps: so much memory, ciphers and hashes of older disks, or both.
pub(super) fn note_refused<E: Write>(fault: &EditFault, notes: OpenerNotes, err: &mut E) {
    if let Some(note) = notes.argon2 {
        let _ = note.say_refused(err);
    }
    if let Some(note) = notes.older {
        let _ = note.say(err);
    }
    note_older_digest(fault, notes.older_digest, err);
}

/// Says of the keyslot how much memory it asked for, where memory was refused.
pub(super) fn note_wanting<E: Write>(notes: OpenerNotes, err: &mut E) {
    if let Some(note) = notes.argon2 {
        let _ = note.say_wanting(err);
    }
}

/// Says of a keyslot that was made how many iterations it has, where these are fewer.
pub(super) fn note_weaker<E: Write>(weaker: Option<Weaker>, err: &mut E) {
    if let Some(
        Weaker {
            iterations,
            opener,
            opener_iterations,
        },
    ) = weaker
    {
        let _ = writeln!(
            err,
            "luks: the new keyslot has {iterations} iterations, keyslot {opener} has {opener_iterations}: --iterations"
        );
    }
}
