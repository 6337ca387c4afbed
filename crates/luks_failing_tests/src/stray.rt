//! A volume that a failed write may leave, in which bytes of the torn write are taken for a header.

use luks_area::MemDevice;
use luks_kdf::HashName;
use luks_reading::{Allowed, Data, check, open_slot};
use luks_test_devices::{Fields, TEXT, UUID, copy_of, key_area, part, put};
use luks2_header::{Copies, Selected, select};
use std::alloc::Global;
use std::test::Fail;

/// The changes of the small volume's text for a header of 32768 bytes: the key areas begin at 65536,
/// the data at 131072.
const CHANGES: [(&str, &str); 3] = [
    (r#""offset":"65536""#, r#""offset":"131072""#),
    (r#""offset":"32768""#, r#""offset":"65536""#),
    (r#""json_size":"12288""#, r#""json_size":"28672""#),
];

/// A volume with copies of 32768 bytes; keyslot 0 opens by the passphrase `one`.
fn larger_volume(alloc: Global) -> Result<Vec<u8>, Fail> {
    let fields = Fields {
        size: 32768,
        seqid: 1,
        uuid: UUID,
        text: TEXT,
        changes: &CHANGES,
    };
    let mut volume = vec![in alloc; 0u8; 131584]?;
    put(&mut volume, 0, copy_of(alloc, 0, &fields)?.as_slice());
    put(
        &mut volume,
        32768,
        copy_of(alloc, 32768, &fields)?.as_slice(),
    );
    put(
        &mut volume,
        65536,
        key_area(alloc, HashName::Sha256, b"one")?.as_slice(),
    );
    Ok(volume)
}

/// What a failed write of the first copy may leave: its magic is destroyed, and a sound second copy of
/// 16384 bytes stands within it.
fn torn_volume(alloc: Global, volume: &[u8]) -> Result<Vec<u8>, Fail> {
    let fields = Fields {
        size: 16384,
        seqid: 1,
        uuid: UUID,
        text: TEXT,
        changes: &[],
    };
    let mut torn = volume.to_vec(alloc)?;
    put(&mut torn, 0, &[0xFF; 6]);
    put(&mut torn, 16384, copy_of(alloc, 16384, &fields)?.as_slice());
    Ok(torn)
}

/// The place and the length of the copy that counts, and how the copies stand to each other.
fn counting(device: &mut MemDevice) -> Option<(u64, u64, Copies)> {
    match select(device) {
        Ok(Selected::V2 { header, copies }) => Some((header.hdr_offset, header.hdr_size, copies)),
        _ => None,
    }
}

// So what is said of a volume that a failing call left needs that it isn't stray: the copy at 16384
// counts, though the one at 32768 is as it was, and keyslot 0 no longer opens.
#[test]
fn bytes_of_a_torn_write_count(rt: HostRuntime) -> Result<(), Fail> {
    let alloc = rt.alloc();
    let volume = larger_volume(alloc)?;
    let torn = torn_volume(alloc, &volume)?;
    let behind = part(&torn, 32768, 131584) == part(&volume, 32768, 131584);
    assert!(rt; behind, "the bytes behind the first copy");
    let mut device = MemDevice::new(volume);
    let found = counting(&mut device);
    assert!(rt; found == Some((0, 32768, Copies::InStep)), "the volume");
    assert!(rt; check(alloc, &mut device, Data::Here).is_ok(), "accepted");
    let opened = open_slot(alloc, &mut device, 0, b"one", Allowed::NOTHING).is_ok_and(
        |key| key.is_some(),
    );
    assert!(rt; opened, "its keyslot");
    let mut device = MemDevice::new(torn);
    let found = counting(&mut device);
    assert!(rt;
        found == Some((16384, 16384, Copies::SecondOnly)),
        "what counts"
    );
    let opened = open_slot(alloc, &mut device, 0, b"one", Allowed::NOTHING).is_ok_and(
        |key| key.is_some(),
    );
    assert!(rt; !opened, "the keyslot");
    Ok(())
}
