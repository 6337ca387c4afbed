ghost use Rattle.std.specs.Prelude.{◌≡◌, ◌+◌, ◌^◌, ◌<◌, ◌≤◌, length, OnOk};
ghost use Rattle.luks_area.specs.Calls.{IsReady, KeepsBut, Settles};
ghost use Rattle.luks_area.specs.Device.{is_failure};
ghost use Rattle.luks_area.specs.Ranges.{part, IsAt};
ghost use Rattle.luks2_header.specs.Header2.{binary_header_size, header_at};
ghost use Rattle.luks2_header.specs.declared.bin2.Bin2.{Bin2 as TheHeader};
ghost use Rattle.luks_writing.specs.Copy.{HasCopy, IsCopyHeader, IsSummed};

use crate::checksums::with_checksum;
use luks_area::{Device, DeviceFault};
use luks2_header::Bin2;

/// The bytes of the binary header, behind which the JSON area stands.
const BINARY_HEADER: u64 = 4096;

/// Writes the copy with this binary header and JSON area at the place that the header names, and
/// flushes. Its checksum is made here, whatever the header says; `Bin2::renewed` makes such a header
/// of another copy's, and label, uuid, subsystem and length are its own to set.
///
/// `Device` comes where a call of the device failed: then the copy holds any bytes, and every other
/// byte is as it was.
pub fn write_copy<D: Device>(device: &mut D, header: &Bin2, json: &[u8]) -> Result<(), DeviceFault>
    requires json { binary_header_size + length json.now ≡ header.now.hdr_size }
    requires within { header.now.hdr_offset + header.now.hdr_size ≤ D.size device.old }
    requires device { IsReady D.Device device.old }
    ensures settles { Settles D.Device is_failure result device.old device.new }
    ensures copy { D.tells → IsCopyHeader header.now
        → OnOk result (HasCopy (D.bytes device.new) json.now header.now) }
    ensures rest { KeepsBut D.Device
        (IsAt header.now.hdr_offset header.now.hdr_size) device.old device.new }
{
    write_summed_copy(device, &with_checksum(header, json), json)
}

/// Writes a copy of a header that has its checksum already, as `with_checksums` makes it. No checksum is
/// taken here.
pub fn write_summed_copy<D: Device>(
    device: &mut D,
    header: &Bin2,
    json: &[u8],
) -> Result<(), DeviceFault>
    requires json { binary_header_size + length json.now ≡ header.now.hdr_size }
    requires within { header.now.hdr_offset + header.now.hdr_size ≤ D.size device.old }
    requires device { IsReady D.Device device.old }
    ensures settles { Settles D.Device is_failure result device.old device.new }
    ensures copy { D.tells → (h : TheHeader) → IsCopyHeader h → IsSummed h json.now header.now
        → OnOk result (HasCopy (D.bytes device.new) json.now h) }
    ensures rest { KeepsBut D.Device
        (IsAt header.now.hdr_offset header.now.hdr_size) device.old device.new }
{
    write_both(device, header.hdr_offset, &header.write(), json)
}

/// Writes the binary header and the JSON area behind it, and flushes.
fn write_both<D: Device>(
    device: &mut D,
    at: u64,
    head: &[u8],
    json: &[u8],
) -> Result<(), DeviceFault>
    requires head { length head.now ≡ binary_header_size }
    requires within { at + (binary_header_size + length json.now) ≤ D.size device.old }
    requires device { IsReady D.Device device.old }
    ensures settles { Settles D.Device is_failure result device.old device.new }
    ensures head { D.tells → OnOk result (header_at (D.bytes device.new) at ≡ head.now) }
    ensures area { D.tells → OnOk result
        (part (D.bytes device.new) (at + binary_header_size) (length json.now) ≡ json.now) }
    ensures rest { KeepsBut D.Device
        (IsAt at (binary_header_size + length json.now)) device.old device.new }
{
    device.write_at(at, head)?;
    device.write_at(at + BINARY_HEADER, json)?;
    device.flush()?;
    Ok(())
}
