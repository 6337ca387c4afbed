//! Sizes as a command line has them: a number, and behind it a letter for a power of 1024.
ghost use Rattle.std.specs.Prelude.{◌<◌};
ghost use Rattle.luks_line.specs.Sizes.{IsParted, IsSize};

/// A MiB in bytes.
const MIB: u64 = 1 << 20;

/// How many bytes the text says: a number, and behind it K, M, G or T for 1024 bytes, 1024 times as many, and so
/// on. Without a letter it is a number of units of so many bytes. None where it is no such number, or where
/// 64 bits don't hold the bytes.
pub fn bytes_in(text: &str, unit: u64) -> Option<u64>
    requires { 0 < unit }
    ensures { IsSize text.now unit result }
{
    let (number, factor) = parted(text, unit);
    match number.parse::<u64>() {
        Ok(number) => number.checked_mul(factor),
        Err(_) => None,
    }
}

/// The text's number, and the bytes that it is a number of.
fn parted(text: &str, unit: u64) -> (&str, u64)
    ensures { IsParted text.now unit result.0.now result.1 }
{
    if let Some(number) = text.strip_suffix('K') {
        return (number, 1 << 10);
    }
    if let Some(number) = text.strip_suffix('M') {
        return (number, 1 << 20);
    }
    if let Some(number) = text.strip_suffix('G') {
        return (number, 1 << 30);
    }
    match text.strip_suffix('T') {
        Some(number) => (number, 1 << 40),
        None => (text, unit),
    }
}

/// How many MiB the text says, a number of them or one with a letter behind it. None where it says no whole
/// number of them.
pub(crate) fn mib_in(text: &str) -> Option<u64> {
    let bytes = bytes_in(text, MIB)?;
    if bytes % MIB == 0 {
        Some(bytes / MIB)
    } else {
        None
    }
}
