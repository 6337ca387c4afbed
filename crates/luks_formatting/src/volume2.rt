//! A new LUKS2 volume, made and then written.
ghost use Rattle.std.specs.Prelude.{◌≡◌, ◌≢◌, ◌+◌, ◌*◌, ◌^◌, ◌<◌, ◌≤◌, ℕ, false, true, length, Some, IfErr, IfOk, IfSome, OnOk};
ghost use Rattle.luks_area.specs.Device.{CountsFailure, IsSettled, is_failure};
ghost use Rattle.luks_area.specs.Ranges.{SameBut};
ghost use Rattle.luks_writing.specs.MadeInOrder.{ClearsFirst, WritesInTurn};
ghost use Rattle.luks_kdf.specs.Names.{digest_size_of};
ghost use Rattle.luks_slot.specs.declared.allowed.Allowed.{Allowed as TheAllowed};
ghost use Rattle.luks_reading.specs.Answer.{AnswerWithin, opens};
ghost use Rattle.luks_reading.specs.Checked.{WellFormed};
ghost use Rattle.luks_making.specs.Derivations.{IsMakeable, memory_by, takes_memory};
ghost use Rattle.luks_formatting.specs.Deriving.{slot_derivation};
ghost use Rattle.luks_formatting.specs.FormatFaults.{HasNoFault, IsAnsweredFaultOrMemory, IsFormat2FaultAs, is_device_fault};
ghost use Rattle.luks_formatting.specs.Formatted2.{IsOfLuks2};
ghost use Rattle.luks_formatting.specs.NewHeader2.{copy_size, segment_start};
ghost use Rattle.luks_reading.specs.declared.report.Data.TheVariants.{Here};
ghost use Rattle.luks_formatting.specs.NewPlan.{key_digest, IsSealable, IsSealableWithin};
ghost use Rattle.luks_formatting.specs.Encrypting.{is_older, takes_key};
ghost use Rattle.luks_formatting.specs.RandomBytes.{needed_bytes, random_stripes, slot_place2};
ghost use Rattle.luks_formatting.specs.Given.{key_of, IsBefore, IsSound2};
ghost use Rattle.luks_formatting.specs.Volume2.{Fits, HasAllButFirst, HasArea, HasKeyArea, HasPlan, IsMade, IsReady};
ghost use Rattle.luks_formatting.specs.declared.format_fault.FormatFault.{FormatFault as TheFault};

use crate::format_fault::FormatFault;
use crate::given::{Given, key_of};
use crate::judging::{Wanted, judge};
use crate::metadata::new_area;
use crate::new_header2::{COPY_SIZE, FIRST_SALT, SECOND_SALT, SLOT_SALT, write_new_copy};
use crate::plan::{new_plan_by, plan_derivation, put_key_digest};
use crate::random::{DIGEST_SALT, RANDOM_STRIPES, SALT_BYTES, taken, taken_array};
use crate::sealing::{put_key_area, sealed_ahead};
use luks_area::{Area, Device, DeviceFault};
use luks_edit::{Done, Passphrase};
use luks_making::NewDerivation;
use luks_reading::Format;
use luks_slot::{Allowed, AreaCipher, SlotPlan};
use luks_writing::clear_places;
use std::alloc::Global;

/// As many bytes as come before the payload if nothing is given, and as many sectors as 64 bits of bytes tell.
const WANTED: Wanted = Wanted {
    most: 1 << 55,
    least: 16777216,
    second: true,
};

/// The start of the area of keyslot 0, in bytes.
const AREA_START: u64 = 32768;

/// A volume that is to be made, and that none of the faults refuses.
#[derive(Clone, Copy)]
pub(crate) struct Volume<'a> {
    pub(crate) given: &'a Given<'a>,
    pub(crate) format: &'a Format,
    pub(crate) chosen: Option<NewDerivation>,
    pub(crate) passphrase: Passphrase<'a>,
    pub(crate) random: &'a [u8],
}

/// Makes the volume; or answers the first of its faults, or a failed allocation, and then no byte changes.
/// Its passphrase allows memory only if Argon2 takes it.
pub(crate) fn make<D: Device>(
    alloc: Global,
    device: &mut D,
    volume: &Volume<'_>,
) -> Result<Done, FormatFault>
    requires short { 0 < volume.now.passphrase.allowed.memory → length volume.now.passphrase.bytes.now < 2 ^ 32 }
    requires room { D.failed device.old + 1 < 2 ^ 64 }
    requires settled { D.tells → IsSettled D.unsettled device.old }
    ensures fault { IfErr result
        (IsAnsweredFaultOrMemory (IsFormat2FaultAs volume.now.given.now volume.now.passphrase.allowed.older volume.now.chosen
        volume.now.passphrase.allowed.memory
        (D.size device.old) volume.now.format.now volume.now.random.now)) }
    ensures faultless { OnOk result
        (HasNoFault (IsFormat2FaultAs volume.now.given.now volume.now.passphrase.allowed.older volume.now.chosen
        volume.now.passphrase.allowed.memory
        (D.size device.old) volume.now.format.now volume.now.random.now)) }
    ensures same { D.tells → (f : TheFault)
        → IsFormat2FaultAs volume.now.given.now volume.now.passphrase.allowed.older volume.now.chosen volume.now.passphrase.allowed.memory
        (D.size device.old) volume.now.format.now volume.now.random.now f
        → D.bytes device.new ≡ D.bytes device.old }
    ensures memory { D.tells → result ≡ Err FormatFault.Memory
        → D.bytes device.new ≡ D.bytes device.old }
    ensures count { CountsFailure is_device_fault result
        (D.failed device.old) (D.failed device.new) }
    ensures size { D.size device.new ≡ D.size device.old }
    ensures settled { D.tells → D.failed device.new ≡ D.failed device.old
        → IsSettled D.unsettled device.new }
    ensures rest { D.tells → SameBut (IsOfLuks2 volume.now.given.now.key_bytes) (D.bytes device.old) (D.bytes device.new) }
    ensures payload { D.tells → volume.now.given.now.payload ≡ Here
        → SameBut (IsBefore (segment_start volume.now.given.now)) (D.bytes device.old) (D.bytes device.new) }
    ensures order { D.tells → ClearsFirst copy_size
        (HasKeyArea volume.now (D.bytes device.new))
        (HasAllButFirst volume.now (D.bytes device.new))
        (D.bytes device.old) (D.bytes device.new) }
    ensures slot { IfOk result (λ done. done.slot ≡ Some 0) }
    ensures formatted { D.tells → OnOk result (IsMade volume.now (D.bytes device.old) (D.bytes device.new)) }
    ensures well_formed { D.tells → OnOk result (WellFormed (D.bytes device.new) volume.now.given.now.payload) }
    ensures opens { D.tells → OnOk result ((allowed : TheAllowed)
        → memory_by (slot_derivation volume.now.format.now volume.now.chosen) ≤ allowed.memory
        → (is_older volume.now.given.now.cipher ≡ true → allowed.older ≡ true)
        → AnswerWithin allowed (D.bytes device.new) 0 volume.now.passphrase.bytes.now
        (opens (key_of volume.now.given.now volume.now.random.now))) }
{
    let Volume {
        given,
        format,
        chosen,
        random,
        ..
    } = *volume;
    let allowed = volume.passphrase.allowed;
    judge(WANTED, device.len(), given, format, chosen, allowed, random)?;
    let mut buffer = [0; 64];
    let digest = &mut buffer[..format.hash.digest_len()];
    put_key_digest(digest, given, format, random);
    let Ok(json) = new_area(alloc, volume, digest) else {
        return Err(FormatFault::Memory);
    };
    write_made(alloc, device, volume, digest, json.as_slice())?;
    Ok(Done { slot: Some(0) })
}

// Writes the volume, whose digest of the key and JSON area were made.
fn write_made<D: Device>(
    alloc: Global,
    device: &mut D,
    volume: &Volume<'_>,
    digest: &[u8],
    json: &[u8],
) -> Result<(), FormatFault>
    requires short { 0 < volume.now.passphrase.allowed.memory
        → length volume.now.passphrase.bytes.now < 2 ^ 32 }
    requires iterations { 1 ≤ volume.now.format.now.iterations }
    requires makeable { IfSome volume.now.chosen (IsMakeable volume.now.passphrase.allowed.memory) }
    requires long { length volume.now.random.now ≡ needed_bytes true volume.now.given.now.key_bytes }
    requires within { 16777216 ≤ D.size device.old }
    requires sound { IsSound2 volume.now.given.now (D.size device.old) }
    requires digest { digest.now ≡ key_digest volume.now.given.now volume.now.format.now volume.now.random.now
        (digest_size_of volume.now.format.now.hash) }
    requires fits { Fits volume.now }
    requires area { HasArea volume.now json.now }
    requires room { D.failed device.old + 1 < 2 ^ 64 }
    requires settled { D.tells → IsSettled D.unsettled device.old }
    ensures memory { IfErr result (λ f. f ≢ TheFault.Device → f ≡ TheFault.Memory) }
    ensures same { D.tells → IfErr result (λ f. f ≢ TheFault.Device
        → D.bytes device.new ≡ D.bytes device.old) }
    ensures count { CountsFailure is_device_fault result (D.failed device.old) (D.failed device.new) }
    ensures size { D.size device.new ≡ D.size device.old }
    ensures settled { D.tells → D.failed device.new ≡ D.failed device.old
        → IsSettled D.unsettled device.new }
    ensures rest { D.tells → SameBut (IsOfLuks2 volume.now.given.now.key_bytes) (D.bytes device.old) (D.bytes device.new) }
    ensures order { D.tells → ClearsFirst copy_size
        (HasKeyArea volume.now (D.bytes device.new))
        (HasAllButFirst volume.now (D.bytes device.new))
        (D.bytes device.old) (D.bytes device.new) }
    ensures formatted { D.tells → OnOk result
        (IsMade volume.now (D.bytes device.old) (D.bytes device.new)) }
{
    let plan = slot_plan(
        volume.given,
        volume.format,
        volume.chosen,
        volume.random,
        digest,
    );
    if !takes_memory(volume.chosen) {
        write_volume(alloc, device, volume, &plan, None, json)?;
        return Ok(());
    }
    let key = key_of(volume.given, volume.random);
    let stripes = random_stripes(volume);
    let Ok(area) = sealed_ahead(alloc, &plan, &judged(&volume.passphrase), key, stripes) else {
        return Err(FormatFault::Memory);
    };
    write_volume(alloc, device, volume, &plan, Some(area.contents()), json)?;
    Ok(())
}

// The passphrase where older ciphers are accepted, since the volume was judged.
fn judged<'a>(passphrase: &Passphrase<'a>) -> Passphrase<'a>
    ensures bytes { result.bytes.now ≡ passphrase.now.bytes.now }
    ensures memory { result.allowed.memory ≡ passphrase.now.allowed.memory }
    ensures older { result.allowed.older ≡ true }
{
    Passphrase {
        bytes: passphrase.bytes,
        allowed: Allowed {
            memory: passphrase.allowed.memory,
            older: true,
        },
    }
}

// The stripes that are random.
fn random_stripes<'a>(volume: &Volume<'a>) -> &'a [u8]
    requires small { volume.now.given.now.key_bytes ≤ 64 }
    requires long { length volume.now.random.now ≡ needed_bytes true volume.now.given.now.key_bytes }
    ensures value { result.now ≡ random_stripes volume.now.given.now.key_bytes
        (slot_place2 volume.now.given.now.key_bytes) volume.now.random.now }
    ensures length { length result.now ≡ 3999 * volume.now.given.now.key_bytes }
{
    let key_bytes = volume.given.key_bytes as usize;
    taken(
        volume.random,
        SLOT_SALT + key_bytes + SALT_BYTES,
        RANDOM_STRIPES * key_bytes,
    )
}

// What is chosen derives by Argon2.
fn takes_memory(chosen: Option<NewDerivation>) -> bool
    ensures { result ≡ takes_memory chosen }
{
    matches!(
        chosen,
        Some(NewDerivation::Argon2i(_) | NewDerivation::Argon2id(_))
    )
}

// Clears both copies' places, and writes the volume.
fn write_volume<D: Device>(
    alloc: Global,
    device: &mut D,
    volume: &Volume<'_>,
    plan: &SlotPlan<'_>,
    ahead: Option<&[u8]>,
    json: &[u8],
) -> Result<(), DeviceFault>
    requires iterations { 1 ≤ volume.now.format.now.iterations }
    requires long { length volume.now.random.now ≡ needed_bytes true volume.now.given.now.key_bytes }
    requires within { 16777216 ≤ D.size device.old }
    requires sound { IsSound2 volume.now.given.now (D.size device.old) }
    requires fits { Fits volume.now }
    requires area { HasArea volume.now json.now }
    requires plan { HasPlan volume.now.given.now volume.now.format.now volume.now.chosen volume.now.random.now plan.now }
    requires sealable { IsReady volume.now plan.now ahead }
    requires room { D.failed device.old + 1 < 2 ^ 64 }
    requires settled { D.tells → IsSettled D.unsettled device.old }
    ensures count { CountsFailure is_failure result (D.failed device.old) (D.failed device.new) }
    ensures size { D.size device.new ≡ D.size device.old }
    ensures settled { D.tells → D.failed device.new ≡ D.failed device.old
        → IsSettled D.unsettled device.new }
    ensures rest { D.tells → SameBut (IsOfLuks2 volume.now.given.now.key_bytes) (D.bytes device.old) (D.bytes device.new) }
    ensures order { D.tells → ClearsFirst copy_size
        (HasKeyArea volume.now (D.bytes device.new))
        (HasAllButFirst volume.now (D.bytes device.new))
        (D.bytes device.old) (D.bytes device.new) }
    ensures formatted { D.tells → OnOk result
        (IsMade volume.now (D.bytes device.old) (D.bytes device.new)) }
{
    clear_places(device, COPY_SIZE)?;
    write_over_cleared(alloc, device, volume, plan, ahead, json)
}

// The same where the first sectors are cleared.
fn write_over_cleared<D: Device>(
    alloc: Global,
    device: &mut D,
    volume: &Volume<'_>,
    plan: &SlotPlan<'_>,
    ahead: Option<&[u8]>,
    json: &[u8],
) -> Result<(), DeviceFault>
    requires iterations { 1 ≤ volume.now.format.now.iterations }
    requires long { length volume.now.random.now ≡ needed_bytes true volume.now.given.now.key_bytes }
    requires within { 16777216 ≤ D.size device.old }
    requires sound { IsSound2 volume.now.given.now (D.size device.old) }
    requires fits { Fits volume.now }
    requires area { HasArea volume.now json.now }
    requires plan { HasPlan volume.now.given.now volume.now.format.now volume.now.chosen volume.now.random.now plan.now }
    requires sealable { IsReady volume.now plan.now ahead }
    requires room { D.failed device.old + 1 < 2 ^ 64 }
    requires settled { D.tells → IsSettled D.unsettled device.old }
    ensures count { CountsFailure is_failure result (D.failed device.old) (D.failed device.new) }
    ensures size { D.size device.new ≡ D.size device.old }
    ensures settled { D.tells → D.failed device.new ≡ D.failed device.old
        → IsSettled D.unsettled device.new }
    ensures rest { D.tells → SameBut (IsOfLuks2 volume.now.given.now.key_bytes) (D.bytes device.old) (D.bytes device.new) }
    ensures order { D.tells → WritesInTurn copy_size
        (HasKeyArea volume.now (D.bytes device.new))
        (HasAllButFirst volume.now (D.bytes device.new))
        (D.bytes device.old) (D.bytes device.new) }
    ensures formatted { D.tells → OnOk result
        (IsMade volume.now (D.bytes device.old) (D.bytes device.new)) }
{
    let random = volume.random;
    let words = volume.passphrase.bytes;
    let key = key_of(volume.given, random);
    let key_bytes = volume.given.key_bytes as usize;
    let stripes = random_stripes(volume);
    put_key_area(alloc, device, plan, ahead, words, key, stripes)?;
    let second = taken_array(random, SECOND_SALT + key_bytes);
    write_new_copy(device, COPY_SIZE, volume.given, random, second, json)?;
    let first = taken_array(random, FIRST_SALT + key_bytes);
    write_new_copy(device, 0, volume.given, random, first, json)?;
    Ok(())
}

// The plan of keyslot 0.
fn slot_plan<'a>(
    given: &Given<'_>,
    format: &Format,
    chosen: Option<NewDerivation>,
    random: &'a [u8],
    digest: &'a [u8],
) -> SlotPlan<'a>
    requires iterations { 1 ≤ format.now.iterations }
    requires takes { takes_key given.now.cipher given.now.key_bytes ≡ true }
    requires long { 208 + given.now.key_bytes ≤ length random.now }
    requires digest { digest.now
        ≡ key_digest given.now format.now random.now (digest_size_of format.now.hash) }
    ensures plan { HasPlan given.now format.now chosen random.now result }
    ensures sealable { (allowed : TheAllowed) → allowed.older ≡ true → IfSome chosen (IsMakeable allowed.memory)
        → IsSealableWithin allowed given.now.key_bytes result }
    ensures here { (memory : ℕ) → IfSome chosen (IsMakeable memory)
        → takes_memory chosen ≡ false → IsSealable given.now.key_bytes result }
{
    let key_bytes = given.key_bytes as usize;
    let cipher = AreaCipher::Whole(given.cipher.text());
    let area = Area {
        start: AREA_START,
        len: (u64::from(given.key_bytes) * 4000).next_multiple_of(4096),
    };
    let salt = taken(random, SLOT_SALT + key_bytes, SALT_BYTES);
    let digest_salt = taken(random, DIGEST_SALT + key_bytes, SALT_BYTES);
    let derivation = plan_derivation(format, chosen, salt);
    new_plan_by(
        derivation,
        format,
        key_bytes,
        cipher,
        area,
        digest_salt,
        digest,
    )
}
