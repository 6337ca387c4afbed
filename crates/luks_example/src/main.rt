//! Judges a volume, and tries a passphrase on it.
#![tactic(auto)]

use luks_volume::{Allowed, Data, FileDevice, check, unlock};
use std::fs::File;
use std::io;
use std::process::ExitCode;
use std::rt::Files;

fn main(rt: HostRuntime) -> ExitCode {
    ExitCode::from(look(&rt, "disk.img", b"secret").unwrap_or(4))
}

fn look<R: AllocGlobal + Files<File = File> + Print>(
    rt: &R,
    path: &str,
    passphrase: &[u8],
) -> io::Result<u8> {
    let mut device = FileDevice::new(File::open(rt, path)?)?;
    if let Err(fault) = check(rt.alloc(), &mut device, Data::Here) {
        println!(rt; "refused {fault}")?;
        return Ok(1);
    }
    match unlock(rt.alloc(), &mut device, passphrase, Allowed::NOTHING) {
        Ok(Some((slot, _key))) => println!(rt; "slot {slot} opens")?,
        Ok(None) => println!(rt; "no slot opens")?,
        Err(fault) => println!(rt; "refused {fault}")?,
    }
    Ok(0)
}
