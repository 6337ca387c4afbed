//! Trying the keyslots one by one, where a device call has failed: those that can't be read are named and
//! passed over.
ghost use Rattle.std.specs.Prelude.{◌≡◌, ◌+◌, ◌^◌, ◌<◌, length};
ghost use Rattle.luks_area.specs.Device.{IsUnchanged};
ghost use Rattle.luks_reading.specs.Header.{IsAcceptedHeader, IsHeader};
ghost use Rattle.luks_commands.specs.Searched.{Searches};
ghost use Rattle.luks_commands.specs.Turns.{TriesOne, TriesTurn, is_in_turn, is_opened};

use luks_notes::note_wanting;
use luks_reading::{Allowed, Device, Header, Key, OpenFault, open_header_slot};
use std::alloc::Global;
use std::io::Write;

/// What is tried: the passphrase on the keyslots of a header that was read.
#[derive(Clone, Copy)]
pub(crate) struct Trial<'a> {
    /// The file of the volume.
    pub(crate) volume: &'a str,
    /// The volume's header.
    pub(crate) header: &'a Header,
    /// The passphrase.
    pub(crate) passphrase: &'a [u8],
    /// What is allowed.
    pub(crate) allowed: Allowed,
}

/// When a keyslot is tried.
#[derive(Clone, Copy)]
pub(crate) enum Turn {
    /// Before all others: of LUKS2 those of priority 2.
    First,
    /// After those: of LUKS2 those of priority 1 or none, of LUKS1 all.
    Later,
}

/// Tries the keyslots one by one, in the order in which they are tried else: the first that opens. Each
/// that can't be read is named and passed over, and so is one to which memory is refused; one that is
/// refused is passed over.
pub(crate) fn search<D: Device, E: Write>(
    alloc: Global,
    device: &mut D,
    trial: &Trial<'_>,
    err: &mut E,
) -> Option<u8>
    requires room { D.failed device.old + 64 < 2 ^ 64 }
    requires accepted { IsAcceptedHeader trial.now.header.now }
    requires passphrase { length trial.now.passphrase.now < 2 ^ 32 }
    ensures unchanged { IsUnchanged D.tells D.size D.bytes D.unsettled device.old device.new }
    ensures searches { Searches (D.tells × IsHeader (D.bytes device.old) trial.now.header.now)
        trial.now.allowed (D.bytes device.old) trial.now.passphrase.now
        (D.failed device.old) (D.failed device.new) result }
{
    match try_turn(alloc, device, trial, Turn::First, err) {
        Some(n) => Some(n),
        None => try_turn(alloc, device, trial, Turn::Later, err),
    }
}

/// Tries the keyslots of a turn by number: the first that opens.
fn try_turn<D: Device, E: Write>(
    alloc: Global,
    device: &mut D,
    trial: &Trial<'_>,
    turn: Turn,
    err: &mut E,
) -> Option<u8>
    requires room { D.failed device.old + 32 < 2 ^ 64 }
    requires accepted { IsAcceptedHeader trial.now.header.now }
    requires passphrase { length trial.now.passphrase.now < 2 ^ 32 }
    ensures unchanged { IsUnchanged D.tells D.size D.bytes D.unsettled device.old device.new }
    ensures tries { TriesTurn D.tells (D.bytes device.old) trial.now.header.now trial.now.allowed
        trial.now.passphrase.now turn (D.failed device.old) (D.failed device.new) result }
{
    for n in 0..32 {
        if is_in_turn(trial.header, turn, n) {
            if opens(alloc, device, trial, n, err) {
                return Some(n);
            }
        }
    }
    None
}

/// Whether the keyslot is tried in this turn.
fn is_in_turn(header: &Header, turn: Turn, n: u8) -> bool
    requires { n < 32 }
    ensures { result ≡ is_in_turn turn header.now n }
{
    match header {
        Header::Luks1(_) => match turn {
            Turn::First => false,
            Turn::Later => true,
        },
        Header::Luks2(copy) => match copy.meta.keyslot(n) {
            Some(keyslot) => match (turn, keyslot.priority) {
                (Turn::First, Some(2)) => true,
                (Turn::Later, None | Some(1)) => true,
                _ => false,
            },
            None => false,
        },
    }
}

/// Whether the keyslot opens; one that can't be read is named, and so is one to which memory is refused.
fn opens<D: Device, E: Write>(
    alloc: Global,
    device: &mut D,
    trial: &Trial<'_>,
    n: u8,
    err: &mut E,
) -> bool
    requires room { D.failed device.old + 1 < 2 ^ 64 }
    requires accepted { IsAcceptedHeader trial.now.header.now }
    requires passphrase { length trial.now.passphrase.now < 2 ^ 32 }
    ensures unchanged { IsUnchanged D.tells D.size D.bytes D.unsettled device.old device.new }
    ensures tries { TriesOne D.tells (D.bytes device.old) trial.now.header.now trial.now.allowed
        trial.now.passphrase.now n (D.failed device.old) (D.failed device.new) result }
{
    let Trial {
        volume,
        header,
        passphrase,
        allowed,
    } = *trial;
    let opened = open_header_slot(alloc, device, header, n, passphrase, allowed);
    match &opened {
        Err(OpenFault::Device) => note_unread(volume, n, err),
        Err(OpenFault::Memory) => note_wanting(header, n, device.len(), allowed, err),
        _ => {}
    }
    is_opened(&opened)
}

/// Says that a keyslot couldn't be read.
pub(crate) fn note_unread<E: Write>(volume: &str, n: u8, err: &mut E) {
    let _ = writeln!(
        err,
        "luks: {volume}: keyslot {n} couldn't be read, and was passed over"
    );
}

/// Whether opening a keyslot gave a key.
fn is_opened(opened: &Result<Option<Key>, OpenFault>) -> bool
    ensures { result ≡ is_opened opened.now }
{
    match opened {
        Ok(Some(_)) => true,
        _ => false,
    }
}
