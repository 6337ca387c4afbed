//! Lists of edits: beside the model in testdata/oracle, and with a failing call.

ghost use Rattle.std.specs.Prelude.{◌+◌, ◌<◌, ◌^◌};

use crate::answers::line_of;
use crate::rows::Row;
use crate::{luks1, luks2};
use luks_area::{Device, FaultyDevice, Leave, MemDevice};
use luks_edit::{Done, Edit, EditFault, Step};
use luks_formatting::{Format, format2};
use luks_kdf::HashName;
use luks_reading::{Allowed, Copies, Data, Version, check, open_slot};
use luks_test_devices::{VOLUME_KEY, add, counted, is_sum, label, remove, small1, small2};
use luks_volume::run;
use std::alloc::Global;
use std::test::Fail;

/// A reply of `run`.
pub(crate) type Reply = Result<Done, EditFault>;

/// For each row its random bytes, counted from its number on.
pub(crate) fn random_of(alloc: Global, rows: &[Row]) -> Result<Vec<Vec<u8>>, Fail> {
    let mut all = Vec::new(alloc);
    for (i, row) in rows.iter().enumerate() {
        all.push(counted(alloc, i.wrapping_add(1), row.1.unwrap_or(0))?)?;
    }
    Ok(all)
}

/// The rows' edits, each with its random bytes.
pub(crate) fn steps_of<'a>(
    alloc: Global,
    rows: &[Row],
    random: &'a [Vec<u8>],
) -> Result<Vec<Step<'a>>, Fail> {
    let mut steps = Vec::new(alloc);
    for (row, random) in rows.iter().zip(random) {
        steps.push(Step {
            edit: row.0,
            random: random.as_slice(),
        })?;
    }
    Ok(steps)
}

/// Whether each row has its reply.
fn are_told(alloc: Global, rows: &[Row], replies: &[Reply]) -> Result<bool, Fail> {
    for (row, reply) in rows.iter().zip(replies) {
        if line_of(alloc, reply)?.as_str() != row.2 {
            return Ok(false);
        }
    }
    Ok(replies.len() == rows.len())
}

/// Whether the list has its replies, and leaves the last volume of those with these sums.
fn runs(alloc: Global, image: Vec<u8>, rows: &[Row], sums: &[&str]) -> Result<bool, Fail> {
    let random = random_of(alloc, rows)?;
    let steps = steps_of(alloc, rows, &random)?;
    let mut device = MemDevice::new(image);
    let mut replies = Vec::new(alloc);
    let ran = run(alloc, &mut device, Data::Here, &steps, &mut replies);
    let last = sums.last().ok_or("no sum")?;
    let told = are_told(alloc, rows, &replies)?;
    Ok(ran.is_ok() && told && is_sum(device.contents(), last))
}

/// The same of the list of LUKS1.
fn runs_luks1(alloc: Global, image: Vec<u8>) -> Result<bool, Fail> {
    runs(alloc, image, &luks1::table::LIST, &luks1::table::SHA256)
}

/// The same of the list of LUKS2.
fn runs_luks2(alloc: Global, image: Vec<u8>) -> Result<bool, Fail> {
    runs(alloc, image, &luks2::table::LIST, &luks2::table::SHA256)
}

#[test]
fn whole_lists(rt: HostRuntime) -> Result<(), Fail> {
    let alloc = rt.alloc();
    let old = runs_luks1(alloc, small1(alloc, HashName::Sha256)?)?;
    assert!(rt; old, "LUKS1");
    let new = runs_luks2(alloc, small2(alloc, HashName::Sha256)?)?;
    assert!(rt; new, "LUKS2");
    Ok(())
}

/// A list over a formatted LUKS2 volume, with its replies: printed by `testdata/oracle/edit_scripts worked`.
const WORKED: [Row; 9] = [
    (
        add!(0, b"one", b"two", None),
        Some(256097),
        "refused RandomLength",
    ),
    (remove!(0, b"one"), Some(129), "refused LastSlot"),
    (label!(b"x\x0a"), Some(128), "refused BadLabel"),
    (
        add!(0, b"one", b"two", Some(32)),
        None,
        "refused NoFreeSlot",
    ),
    (add!(0, b"one", b"two", None), Some(256096), "done slot 1"),
    (
        add!(0, b"one", b"three", Some(1)),
        None,
        "refused SlotTaken",
    ),
    (remove!(0, b"one"), Some(128), "done"),
    (remove!(1, b"two"), Some(128), "refused LastSlot"),
    (Edit::Repair, Some(128), "done"),
];

/// A LUKS2 volume of 16777728 bytes, formatted by the passphrase `one`.
fn formatted(alloc: Global) -> Result<MemDevice, Fail> {
    let random = counted(alloc, 0, 256208)?;
    let mut device = MemDevice::new(vec![in alloc; 0xA5u8; 16777728]?);
    let format = Format {
        hash: HashName::Sha256,
        iterations: 1000,
    };
    match format2(alloc, &mut device, Data::Here, &format, b"one", &random) {
        Ok(_) => Ok(device),
        Err(_) => Err("not formatted".into()),
    }
}

/// Whether `check` accepts the volume, as one of LUKS2 with this sequence number and both copies in
/// step.
fn is_at(alloc: Global, device: &mut MemDevice, number: u64) -> bool {
    match check(alloc, device, Data::Here) {
        Ok(report) => match report.version {
            Version::Luks2 { copies, seqid } => copies == Copies::InStep && seqid == number,
            Version::Luks1 => false,
        },
        Err(_) => false,
    }
}

/// The bytes of the key that the keyslot opens to.
fn key_of(
    alloc: Global,
    device: &mut MemDevice,
    n: u8,
    passphrase: &[u8],
) -> Result<Vec<u8>, Fail> {
    match open_slot(alloc, device, n, passphrase, Allowed::NOTHING) {
        Ok(Some(key)) => Ok(key.as_bytes().to_vec(alloc)?),
        _ => Err("no key".into()),
    }
}

#[test]
fn worked_list(rt: HostRuntime) -> Result<(), Fail> {
    let alloc = rt.alloc();
    let mut device = formatted(alloc)?;
    let before = key_of(alloc, &mut device, 0, b"one")?;
    let random = random_of(alloc, &WORKED)?;
    let steps = steps_of(alloc, &WORKED, &random)?;
    let mut replies = Vec::new(alloc);
    let ran = run(alloc, &mut device, Data::Here, &steps, &mut replies);
    assert!(rt;
        ran.is_ok() && are_told(alloc, &WORKED, &replies)?,
        "the replies"
    );
    assert!(rt; is_at(alloc, &mut device, 4), "the sequence number");
    let after = key_of(alloc, &mut device, 1, b"two")?;
    assert!(rt; after == before, "the key");
    let payload = device.contents().get(16777216..).unwrap_or(&[]);
    let same = payload.iter().all(|byte| *byte == 0xA5);
    assert!(rt; payload.len() == 512 && same, "the payload");
    Ok(())
}

// A list of no edit has no reply, and a reply that was there stays.
#[test]
fn no_step(rt: HostRuntime) -> Result<(), Fail> {
    let alloc = rt.alloc();
    let mut device = MemDevice::new(small1(alloc, HashName::Sha256)?);
    let mut replies = Vec::new(alloc);
    replies.push(Err(EditFault::LastSlot))?;
    let ran = run(alloc, &mut device, Data::Here, &[], &mut replies);
    assert!(rt; ran.is_ok(), "the list");
    assert!(rt;
        matches!(replies.as_slice(), [Err(EditFault::LastSlot)]),
        "the replies"
    );
    let same = device.contents() == small1(alloc, HashName::Sha256)?.as_slice();
    assert!(rt; same, "the volume");
    Ok(())
}

/// How a list of two edits ended.
#[derive(Debug, Clone, Copy, PartialEq, Eq)]
enum End {
    /// Both were done.
    Done,
    /// The device failed in the first, which has the only reply.
    First,
    /// The first was done, and the device failed in the second.
    Second,
    Other,
}

/// The first two additions of the rows, with a device whose call of this number fails.
fn end_of(alloc: Global, call: u64) -> Result<End, Fail> {
    let list = luks1::table::LIST;
    let rows = list.get(1..3).ok_or("no rows")?;
    let random = random_of(alloc, rows)?;
    let steps = steps_of(alloc, rows, &random)?;
    let image = MemDevice::new(small1(alloc, HashName::Sha256)?);
    let mut device = FaultyDevice::new(image, call, Leave::Ones);
    let mut replies = Vec::new(alloc);
    if run(alloc, &mut device, Data::Here, &steps, &mut replies).is_err() {
        return Ok(End::Other);
    }
    let failures = device.failures();
    let mut left = device.into_inner();
    match replies.as_slice() {
        [Ok(_), Ok(_)] if failures == 0 => Ok(End::Done),
        [Err(EditFault::Device)] if failures == 1 => Ok(End::First),
        [Ok(_), Err(EditFault::Device)] if failures == 1 => Ok(second_end(alloc, &mut left)),
        _ => Ok(End::Other),
    }
}

/// The keyslot that the first addition made opens, whatever is left of the second.
fn second_end(alloc: Global, left: &mut MemDevice) -> End {
    match open_slot(alloc, left, 1, b"two", Allowed::NOTHING) {
        Ok(Some(key)) if key.as_bytes() == VOLUME_KEY.as_slice() => End::Second,
        _ => End::Other,
    }
}

// Whichever call fails, the reply of its step is the last one.
#[test]
fn failing_calls(rt: HostRuntime) -> Result<(), Fail> {
    let mut first = 0;
    let mut second = 0;
    for call in 0..128 {
        match end_of(rt.alloc(), call)? {
            End::Done => break,
            End::First if second == 0 => first = call,
            End::Second => second = call,
            _ => assert!(rt; false, "call {call}"),
        }
    }
    assert!(rt;
        0 < first && first < second && second < 127,
        "{first} {second}"
    );
    Ok(())
}
