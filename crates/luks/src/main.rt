//! The program `luks`: `luks_main` runs its command line.
//!
//! The stored run tries a passphrase on `data/l1.img`, the image that `testdata/oracle/values` writes as
//! `sample`: LUKS1 of 2097664 bytes by the header's layout, all keyslots disabled. So it ends with the
//! status 1.
#![tactic(auto)]

use std::process::ExitCode;

fn main(rt: HostRuntime) -> ExitCode {
    ExitCode::from(luks_main::run(&rt))
}
