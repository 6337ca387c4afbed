//! From the stripes of a keyslot's area to what they hold.

ghost use Rattle.std.specs.Prelude.{◌≡◌, ◌+◌, ◌*◌, ◌^◌, ◌<◌, ◌≤◌, length, replicate, OnOk};
ghost use Rattle.luks_area.specs.Area.{IsInside};
ghost use Rattle.luks_area.specs.Device.{CountsFailure, IsUnchanged, is_failure};
ghost use Rattle.luks_area.specs.Sectors.{rounded_to_sectors};
ghost use Rattle.luks_kdf.specs.KeyslotNames.{keyslot_digest, keyslot_digest_size};
ghost use Rattle.luks_kdf.specs.Splitter.{merge};
ghost use Rattle.luks_slot.specs.Opening.{area_bytes, stripes_from};

use crate::area_reader::AreaReader;
use luks_area::{Device, DeviceFault};
use luks_kdf::{KeyslotHash, xor_into};

// What the stripes of the area hold, by the hash of the splitter.
pub(crate) fn read_candidate<D: Device>(
    device: &mut D,
    reader: &mut AreaReader,
    hash: KeyslotHash,
    stripes: u32,
    out: &mut [u8],
) -> Result<(), DeviceFault>
    requires some_bytes { 1 ≤ length out.old }
    requires at_most_128 { length out.old ≤ 128 }
    requires some_stripes { 1 ≤ stripes }
    requires sectors { rounded_to_sectors (length out.old * stripes) ≤ reader.old.area.len }
    requires within { IsInside reader.old.area (D.size device.old) }
    requires room { D.failed device.old + 1 < 2 ^ 64 }
    ensures count { CountsFailure is_failure result
        (D.failed device.old) (D.failed device.new) }
    ensures unchanged { IsUnchanged D.tells D.size D.bytes D.unsettled device.old device.new }
    ensures value { D.tells → OnOk result (out.new
        ≡ merge (keyslot_digest hash) (keyslot_digest_size hash) (length out.old) stripes
        (stripes_from reader.old.key (area_bytes (D.bytes device.old) reader.old.area)
        (length out.old) stripes)) }
{
    let mut buffer = [0u8; 128];
    let stripe = &mut buffer[..out.len()];
    out.fill(0);
    merge_stripes(device, reader, hash, stripes, stripe, out)
}

// Merges the stripes as they are read. `stripe` is room for one of them; `block` is the running
// block, zeros at first.
fn merge_stripes<D: Device>(
    device: &mut D,
    reader: &mut AreaReader,
    hash: KeyslotHash,
    stripes: u32,
    stripe: &mut [u8],
    block: &mut [u8],
) -> Result<(), DeviceFault>
    requires zeros { block.old ≡ replicate (length block.old) 0 }
    requires stripe_length { length stripe.old ≡ length block.old }
    requires some_bytes { 1 ≤ length block.old }
    requires at_most_128 { length block.old ≤ 128 }
    requires some_stripes { 1 ≤ stripes }
    requires sectors { rounded_to_sectors (length block.old * stripes) ≤ reader.old.area.len }
    requires within { IsInside reader.old.area (D.size device.old) }
    requires room { D.failed device.old + 1 < 2 ^ 64 }
    ensures count { CountsFailure is_failure result
        (D.failed device.old) (D.failed device.new) }
    ensures unchanged { IsUnchanged D.tells D.size D.bytes D.unsettled device.old device.new }
    ensures value { D.tells → OnOk result (block.new
        ≡ merge (keyslot_digest hash) (keyslot_digest_size hash) (length block.old) stripes
        (stripes_from reader.old.key (area_bytes (D.bytes device.old) reader.old.area)
        (length block.old) stripes)) }
{
    let len = block.len() as u64;
    let last = u64::from(stripes) - 1;
    for i in 0..last {
        reader.read(device, i * len, stripe)?;
        hash.take_in(block, stripe);
    }
    reader.read(device, last * len, stripe)?;
    xor_into(block, stripe);
    Ok(())
}
