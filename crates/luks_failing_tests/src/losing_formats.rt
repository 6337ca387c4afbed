//! Formatting on devices that lose what was written and not flushed.
ghost use Rattle.std.specs.Prelude.{◌+◌, ◌<◌, ◌^◌};
ghost use Rattle.luks_area.specs.Device.{IsSettled};

use luks_area::{Device, MemDevice};
use luks_edit::Done;
use luks_formatting::{FORMAT1_RANDOM, FORMAT2_RANDOM, Format, FormatFault, format1, format2};
use luks_kdf::HashName;
use luks_reading::{Allowed, Data, check, open_slot};
use luks_test_devices::{LosingDevice, Loss, counted, part, put, small1, small2};
use std::alloc::Global;
use std::process::Abort;
use std::test::Fail;

/// The version of LUKS, how many random bytes its formatting takes, the length of the volume, and where
/// its header ends and its key area begins and ends.
const VOLUMES: [(u8, u64, usize, usize, usize, usize); 2] = [
    (1, FORMAT1_RANDOM, 2097664, 592, 4096, 260096),
    (2, FORMAT2_RANDOM, 16777728, 32768, 32768, 288768),
];

/// The calls that clear the first sectors of both copies' places, some of those that write the 500 sectors
/// of the key area, and all later ones.
const CALLS: [u64; 16] = [
    0, 1, 2, 3, 4, 5, 254, 503, 504, 505, 506, 507, 508, 509, 510, 511,
];

const LOSSES: [Loss; 5] = [
    Loss::OutOfOrder,
    Loss::All,
    Loss::EvenSectors,
    Loss::OddSectors,
    Loss::Ones,
];

fn format<D: Device>(
    alloc: Global,
    device: &mut D,
    version: u8,
    random: &[u8],
) -> Result<Done, FormatFault>
    requires room { D.failed device.old + 1 < 2 ^ 64 }
    requires settled { D.tells → IsSettled D.unsettled device.old }
{
    let format = Format {
        hash: HashName::Sha256,
        iterations: 1000,
    };
    if version == 1 {
        format1(alloc, device, Data::Here, &format, b"one", random)
    } else {
        format2(alloc, device, Data::Here, &format, b"one", random)
    }
}

/// Whether the bytes that are neither of the header nor of the key area are as they were.
fn rest_is_same(volume: &[u8], old: &[u8], header: usize, from: usize, to: usize) -> bool {
    let between = part(volume, header, from) == part(old, header, from);
    let behind = part(old, to, old.len());
    between && part(volume, to, volume.len()) == behind && !behind.is_empty()
}

/// Whether the volume is refused, or its keyslot opens.
fn opens_where_accepted(alloc: Global, left: &mut MemDevice) -> bool {
    if check(alloc, left, Data::Here).is_err() {
        return true;
    }
    open_slot(alloc, left, 0, b"one", Allowed::NOTHING).is_ok_and(|key| key.is_some())
}

/// Formats by the version of LUKS over what begins with these bytes, with each loss and at these calls.
fn each_call_over(
    rt: &impl Abort,
    alloc: Global,
    row: (u8, u64, usize, usize, usize, usize),
    old: &[u8],
) -> Result<(), Fail> {
    let (version, random, len, header, from, to) = row;
    let random = counted(alloc, 0, random as usize)?;
    let mut volume = vec![in alloc; 0xA5u8; len]?;
    put(&mut volume, 0, old);
    for loss in LOSSES {
        let mut is_done = false;
        for call in CALLS {
            let mut device = LosingDevice::new(alloc, &volume, call, loss, true)?;
            let answer = format(alloc, &mut device, version, &random);
            let failed = device.failures();
            is_done = answer.is_ok() && failed == 0 && device.contents() == device.settled();
            let is_told = failed == 1 && matches!(answer, Err(FormatFault::Device));
            let mut left = MemDevice::new(device.contents().to_vec(alloc)?);
            let opened = opens_where_accepted(alloc, &mut left);
            let same = rest_is_same(device.contents(), &volume, header, from, to);
            assert!(rt;
                (is_done || is_told) && opened && same,
                "{version}: call {call}"
            );
        }
        assert!(rt; is_done, "{version}: the end");
    }
    Ok(())
}

// The header is written over a key area that is flushed: no cut leaves a volume that is accepted and
// doesn't open.
#[test]
fn each_version(rt: HostRuntime) -> Result<(), Fail> {
    for row in VOLUMES {
        each_call_over(&rt, rt.alloc(), row, &[])?;
    }
    Ok(())
}

// Nor does one where a header of the other version stood, whose key areas are overwritten.
#[test]
fn luks1_over_luks2(rt: HostRuntime) -> Result<(), Fail> {
    let old = small2(rt.alloc(), HashName::Sha256)?;
    each_call_over(&rt, rt.alloc(), VOLUMES[0], &old)
}

#[test]
fn luks2_over_luks1(rt: HostRuntime) -> Result<(), Fail> {
    let old = small1(rt.alloc(), HashName::Sha256)?;
    each_call_over(&rt, rt.alloc(), VOLUMES[1], &old)
}
