//! The edit that a command line asks for of a volume.
ghost use Rattle.std.specs.Prelude.{◌≡◌, ◌+◌, ◌<◌, ◌^◌, ℕ, List, IfOk, IfErr, false, length, option_map};
ghost use Rattle.luks_area.specs.Device.{CountsFailure, IsUnchanged};
ghost use Rattle.luks_commands.specs.Chosen.{chosen_of};
ghost use Rattle.luks_commands.specs.OpenAnswers.{allowed_of};
ghost use Rattle.luks_edit.specs.declared.edit.Edit.{Edit};
ghost use Rattle.luks_edit.specs.EditFaults.{is_edit_failure};
ghost use Rattle.luks_reading.specs.Header.{IsAcceptedHeader, IsHeader};
ghost use Rattle.luks_edit_commands.specs.Editing.{IsAsked, IsMissed, IsTokenOf, IsUntokened, kind_of, priority_of, removed_in, told_slot, UnlessOutside, uuid_of};

use super::finding::keyslot_of;
use luks_commands::chosen_of;
use luks_commands::open::allowed_of;
use luks_edit::NewUuid;
use luks_making::{Change, Priority};
use luks_request::{AskedKdf, AskedPriority, EditRequest, Editing, OpenerFile};
use luks_rules::MetaFault;
use luks_volume::{
    Data, Device, Edit, EditFault, Header, Secret, SecretKind, VolumeKey, needed_of_header,
};
use serde_json::Value;
use std::alloc::Global;
use std::io::Write;

/// The edit of a volume with this header, with these bytes in the place of its passphrases' files, and where the
/// command line names no keyslot with the one that is found; or why none is.
pub(super) fn edit_of<'a, D: Device, E: Write>(
    alloc: Global,
    device: &mut D,
    header: &Header,
    editing: &Editing<'a>,
    old: &'a [u8],
    new: &'a [u8],
    token: Option<&'a Value>,
    err: &mut E,
) -> Result<Edit<'a>, EditFault>
    requires room { D.failed device.old + 1 < 2 ^ 64 }
    requires accepted { IsAcceptedHeader header.now }
    requires short { length old.now < 2 ^ 32 }
    requires token { IsTokenOf editing.now.request old.now token }
    ensures unchanged { IsUnchanged D.tells D.size D.bytes D.unsettled device.old device.new }
    ensures count { CountsFailure is_edit_failure result
        (D.failed device.old) (D.failed device.new) }
    ensures asked { D.tells → IsHeader (D.bytes device.old) header.now
        → IfOk result (IsAsked (D.bytes device.old) editing.now.request
        (λ p. p ≡ old.now) (λ p. p ≡ new.now)) }
    ensures missed { D.tells → IsHeader (D.bytes device.old) header.now
        → IfErr result (UnlessOutside (D.bytes device.old) (IsMissed editing.now.payload
        editing.now.request (λ p. p ≡ old.now) (D.bytes device.old))) }
{
    let payload = editing.payload;
    match editing.request {
        EditRequest::Add {
            by_,
            opener,
            memory,
            older,
            to,
            iterations,
            kdf,
            ..
        } => {
            let old = secret_of(opener, old, memory, older);
            let by_ = keyslot_of(alloc, device, header, payload, by_, &old, err)?;
            Ok(adding(by_, old, new, to, iterations, kdf))
        }
        EditRequest::AddByKey {
            memory,
            older,
            to,
            iterations,
            kdf,
            ..
        } => Ok(Edit::AddByKey {
            key: VolumeKey {
                bytes: old,
                allowed: allowed_of(memory, older),
            },
            new,
            to,
            iterations,
            derivation: chosen_of(kdf),
        }),
        EditRequest::Change {
            slot,
            opener,
            memory,
            older,
            iterations,
            kdf,
            ..
        } => {
            let old = secret_of(opener, old, memory, older);
            let slot = keyslot_of(alloc, device, header, payload, slot, &old, err)?;
            Ok(changing(slot, old, new, iterations, kdf))
        }
        EditRequest::Remove {
            slot,
            by_,
            opener,
            memory,
            older,
        } => {
            let secret = secret_of(opener, old, memory, older);
            let slot = keyslot_of(alloc, device, header, payload, slot, &secret, err)?;
            Ok(Edit::Remove { slot, by_, secret })
        }
        EditRequest::Erase => Ok(Edit::Erase),
        EditRequest::Repair => Ok(Edit::Repair),
        EditRequest::Label { text, subsystem } => Ok(Edit::Label {
            text: text.as_bytes(),
            subsystem: bytes_in(subsystem),
        }),
        EditRequest::Uuid { text } => Ok(Edit::Uuid(uuid_of(text))),
        EditRequest::Priority { slot, priority } => Ok(Edit::Amend(Change::Priority {
            slot,
            priority: priority_of(priority),
        })),
        EditRequest::AddToken { to, .. } => match token {
            Some(token) => Ok(Edit::Amend(Change::AddToken { to, token })),
            None => Err(no_token(header, payload, device.len())),
        },
        EditRequest::RemoveToken { number } => Ok(Edit::Amend(Change::RemoveToken { number })),
    }
}

/// The keyslot that is told of the edit, which made this one, if any: of a removal the one that was found.
pub(super) fn told_slot(request: &EditRequest<'_>, edit: &Edit<'_>, made: Option<u8>) -> Option<u8>
    ensures { result ≡ told_slot request.now edit.now made }
{
    match request {
        EditRequest::Remove { slot: None, .. } => removed_in(edit, made),
        _ => made,
    }
}

/// The keyslot that the edit removes, or else the one that it made.
fn removed_in(edit: &Edit<'_>, made: Option<u8>) -> Option<u8>
    ensures { result ≡ removed_in edit.now made }
{
    match edit {
        Edit::Remove { slot, .. } => Some(*slot),
        _ => made,
    }
}

fn adding<'a>(
    by_: u8,
    old: Secret<'a>,
    new: &'a [u8],
    to: Option<u8>,
    iterations: u32,
    kdf: Option<AskedKdf>,
) -> Edit<'a>
    ensures { result ≡ Edit.Add by_ old.entry new.entry to iterations (chosen_of kdf) }
{
    Edit::Add {
        by_,
        old,
        new,
        to,
        iterations,
        derivation: chosen_of(kdf),
    }
}

fn changing<'a>(
    slot: u8,
    old: Secret<'a>,
    new: &'a [u8],
    iterations: u32,
    kdf: Option<AskedKdf>,
) -> Edit<'a>
    ensures { result ≡ Edit.Change slot old.entry new.entry iterations (chosen_of kdf) }
{
    Edit::Change {
        slot,
        old,
        new,
        iterations,
        derivation: chosen_of(kdf),
    }
}

/// What the file has, a passphrase or a key, with so many MiB of memory, and ciphers and hashes of older
/// disks or not.
fn secret_of<'a>(opener: OpenerFile<'_>, bytes: &'a [u8], mib: u32, older: bool) -> Secret<'a>
    ensures { result ≡ record { kind = kind_of opener.entry; bytes = bytes.entry; allowed = allowed_of mib older } }
{
    Secret {
        kind: kind_of(opener),
        bytes,
        allowed: allowed_of(mib, older),
    }
}

/// Why a file that holds no text adds no token: what refuses every edit of a volume of `total` bytes with this header, or
/// that.
fn no_token(header: &Header, payload: Data, total: u64) -> EditFault
    requires { IsAcceptedHeader header.now }
    ensures own { is_edit_failure result ≡ false }
    ensures is { (v : List ℕ) → IsHeader v header.now → length v ≡ total
        → UnlessOutside v (IsUntokened payload v) result }
{
    match needed_of_header(header, payload, total, &Edit::Repair) {
        Ok(_) => EditFault::BadToken(MetaFault::BadJson),
        Err(fault) => fault,
    }
}

/// The uuid of this text, where one is given; else a new one of random bytes.
fn uuid_of(text: Option<&str>) -> NewUuid<'_>
    ensures { result ≡ uuid_of text.entry }
{
    match text {
        Some(text) => NewUuid::Text(text),
        None => NewUuid::Random,
    }
}

fn priority_of(asked: AskedPriority) -> Priority
    ensures { result ≡ priority_of asked }
{
    match asked {
        AskedPriority::Ignore => Priority::Ignore,
        AskedPriority::Normal => Priority::Normal,
        AskedPriority::Prefer => Priority::Prefer,
    }
}

/// The bytes of the text, where one is given.
fn bytes_in(text: Option<&str>) -> Option<&[u8]>
    ensures { option_map (λ bytes. bytes.now) result ≡ option_map (λ t. t.now) text.entry }
{
    match text {
        Some(text) => Some(text.as_bytes()),
        None => None,
    }
}

/// Whether the file is that of a passphrase or of a key.
fn kind_of(opener: OpenerFile<'_>) -> SecretKind
    ensures { result ≡ kind_of opener.entry }
{
    match opener {
        OpenerFile::Passphrase(_) => SecretKind::Passphrase,
        OpenerFile::Key(_) => SecretKind::Key,
    }
}
