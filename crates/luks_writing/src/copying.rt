//! Copying a range of one device to another.
ghost use Rattle.std.specs.Prelude.{◌≡◌, ◌+◌, ◌^◌, ◌<◌, ◌≤◌, OnOk};
ghost use Rattle.luks_area.specs.Device.{Touches, is_failure};
ghost use Rattle.luks_area.specs.Ranges.{part, written, IsAt};
ghost use Rattle.luks_writing.specs.TwoDevices.{Copies};

use luks_area::{Device, DeviceFault};

/// Copies the `len` bytes of the source from the place `from` on to the place `at` of the target, in
/// pieces of at most 512 bytes, and takes no memory. The source doesn't change.
///
/// If one of the devices fails it stops, and the range of the target holds anything. Nothing is
/// flushed.
pub(crate) fn copy_range<S: Device, T: Device>(
    source: &mut S,
    from: u64,
    target: &mut T,
    at: u64,
    len: u64,
) -> Result<(), DeviceFault>
    requires there { from + len ≤ S.size source.old }
    requires within { at + len ≤ T.size target.old }
    requires source_room { S.failed source.old + 1 < 2 ^ 64 }
    requires room { T.failed target.old + 1 < 2 ^ 64 }
    ensures copies { Copies S.Device T.Device is_failure result
        source.old source.new target.old target.new }
    ensures copied { S.tells → T.tells → OnOk result (T.bytes target.new
        ≡ written (T.bytes target.old) at (part (S.bytes source.old) from len)) }
    ensures touches { T.tells → Touches T.bytes T.unsettled (IsAt at len) target.old target.new }
{
    let mut done = 0;
    while done < len {
        let piece = (len - done).min(512);
        copy_piece(source, from + done, target, at + done, piece as usize)?;
        done += piece;
    }
    Ok(())
}

fn copy_piece<S: Device, T: Device>(
    source: &mut S,
    from: u64,
    target: &mut T,
    at: u64,
    len: usize,
) -> Result<(), DeviceFault>
    requires there { from + len ≤ S.size source.old }
    requires within { at + len ≤ T.size target.old }
    requires piece { len ≤ 512 }
    requires source_room { S.failed source.old + 1 < 2 ^ 64 }
    requires room { T.failed target.old + 1 < 2 ^ 64 }
    ensures copies { Copies S.Device T.Device is_failure result
        source.old source.new target.old target.new }
    ensures copied { S.tells → T.tells → OnOk result (T.bytes target.new
        ≡ written (T.bytes target.old) at (part (S.bytes source.old) from len)) }
    ensures touches { T.tells → Touches T.bytes T.unsettled (IsAt at len) target.old target.new }
{
    let mut buffer = [0u8; 512];
    let piece = &mut buffer[..len];
    source.read_at(from, piece)?;
    target.write_at(at, piece)?;
    Ok(())
}
