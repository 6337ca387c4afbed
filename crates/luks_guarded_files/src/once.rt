//! A file that is opened once, as what it was seen to be.
ghost use Rattle.std.specs.Prelude.{◌≡◌, ◌≢◌, IfErr, IfOk, IsSomeAnd, Some};
ghost use Rattle.luks_guarded_files.specs.Kinds.{IsNoVolume};

use crate::opening::OpenFault;
use crate::system::{Access, Found, Kind, System};
use std::fs::File;
use std::io::{self, ErrorKind};

/// The user to whom any link may belong.
const ROOT: u32 = 0;

/// Opens the file of this name to be written, or makes it, which is answered then. It is opened by one
/// call, and is refused where it isn't the file that the name was seen to be of. A symbolic link is
/// followed where the caller or root owns it, to a file that is there.
pub fn open_or_make<S: System>(system: &mut S, path: &str) -> Result<(File, bool), OpenFault>
    ensures answers { S.answers system.new ≡ S.answers system.old }
    ensures refused { IfErr result (λ fault. fault ≡ OpenFault.NoVolume
        → IsSomeAnd (S.found system.new) IsNoVolume) }
{
    match system.lstat(path) {
        Ok(named) => Ok((open_as_seen(system, path, &named)?, false)),
        Err(error) if error.kind() == ErrorKind::NotFound => {
            Ok((system.open(path, Access::Make)?, true))
        }
        Err(error) => Err(OpenFault::from(error)),
    }
}

/// Opens what the name was seen to be of, and nothing that has taken its place since.
fn open_as_seen<S: System>(system: &mut S, path: &str, named: &Found) -> Result<File, OpenFault>
    requires { S.found system.old ≡ Some named.now }
    ensures answers { S.answers system.new ≡ S.answers system.old }
    ensures refused { IfErr result (λ fault. fault ≡ OpenFault.NoVolume
        → IsSomeAnd (S.found system.new) IsNoVolume) }
{
    let seen = if named.kind == Kind::Link {
        followed(system, path, named)?
    } else {
        *named
    };
    if !seen.kind.has_bytes() {
        return Err(OpenFault::NoVolume);
    }
    let file = system.open(path, Access::Write)?;
    if system.fstat(&file)?.is_of_one_file(&seen) {
        Ok(file)
    } else {
        Err(OpenFault::Exchanged)
    }
}

/// What the link leads to, where it may be followed.
fn followed<S: System>(system: &mut S, path: &str, link: &Found) -> Result<Found, OpenFault>
    ensures answers { S.answers system.new ≡ S.answers system.old }
    ensures found { IfOk result (λ f. S.found system.new ≡ Some f) }
    ensures refused { IfErr result (λ fault. fault ≢ OpenFault.NoVolume) }
{
    if link.owner != ROOT && Some(link.owner) != system.caller() {
        return Err(OpenFault::ForeignLink);
    }
    match system.stat(path) {
        Ok(found) => Ok(found),
        Err(error) if error.kind() == ErrorKind::NotFound => Err(OpenFault::File(io::Error::from(
            ErrorKind::AlreadyExists,
        ))),
        Err(error) => Err(OpenFault::from(error)),
    }
}
