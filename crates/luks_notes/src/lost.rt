//! Which keyslots were lost where a LUKS1 header was made of what stood of one.
ghost use Rattle.std.specs.Prelude.{◌≡◌, ◌↔◌, ◌+◌, ◌^◌, ◌<◌, length, IsTrue};
ghost use Rattle.luks_area.specs.Device.{IsUnchanged};
ghost use Rattle.luks1_header.specs.Header1.{entry_size};
ghost use Rattle.luks_notes.specs.Lost.{IsLost};

use byteorder::{BigEndian, ByteOrder};
use luks_area::Device;
use luks1_header::fields::field;
use luks1_header::{Luks1, Luks1Slot, SlotState};
use std::io::Write;

/// The bytes of the header.
const HEADER: usize = 592;

/// The place of the first of its eight entries, and the bytes of each.
const KEYSLOTS: usize = 208;

const ENTRY: usize = 48;

/// The word of a disabled keyslot.
const DISABLED: u32 = 0x0000_DEAD;

/// Says to `err` which keyslots of the volume, whose entries don't say that they are free, are disabled in
/// the LUKS1 header that was made of it on the target: they may have been in use. If no LUKS1 header
/// begins the target, and where one of the two can't be read, it says nothing.
pub fn note_lost<D: Device, E: Write>(volume: &mut D, target: &mut D, err: &mut E)
    requires volume_room { D.failed volume.old + 1 < 2 ^ 64 }
    requires target_room { D.failed target.old + 1 < 2 ^ 64 }
    ensures volume { IsUnchanged D.tells D.size D.bytes D.unsettled volume.old volume.new }
    ensures target { IsUnchanged D.tells D.size D.bytes D.unsettled target.old target.new }
{
    if let (Some(stood), Some(new)) = (first_bytes(volume), first_bytes(target)) {
        if let Ok(made) = Luks1::read(&new) {
            say_lost(&stood, &made, err);
        }
    }
}

/// The bytes in which a header stands, if the device has so many and can be read.
fn first_bytes<D: Device>(device: &mut D) -> Option<[u8; HEADER]>
    requires { D.failed device.old + 1 < 2 ^ 64 }
    ensures { IsUnchanged D.tells D.size D.bytes D.unsettled device.old device.new }
{
    if device.len() < HEADER as u64 {
        return None;
    }
    let mut bytes = [0; HEADER];
    match device.read_at(0, &mut bytes) {
        Ok(()) => Some(bytes),
        Err(_) => None,
    }
}

/// Says which keyslots of these bytes are lost in the header that was made.
fn say_lost<E: Write>(stood: &[u8; HEADER], made: &Luks1, err: &mut E) {
    for n in 0..8usize {
        if is_lost(field(stood, KEYSLOTS + ENTRY * n, ENTRY), &made.slots[n]) {
            let _ = writeln!(
                err,
                "luks: keyslot {n}, which may have been in use, couldn't be kept: it is disabled"
            );
        }
    }
}

/// Whether the keyslot of this entry is lost by what was made of it.
fn is_lost(entry: &[u8], slot: &Luks1Slot) -> bool
    requires { length entry.now ≡ entry_size }
    ensures { IsTrue result ↔ IsLost entry.now slot.now }
{
    let word = BigEndian::read_u32(field(entry, 0, 4));
    word != DISABLED && slot.state == SlotState::Disabled
}
