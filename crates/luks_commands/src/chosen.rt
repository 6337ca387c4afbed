//! By what a new keyslot derives and a new volume is encrypted, of what the command line asks for.
ghost use Rattle.std.specs.Prelude.{◌≡◌};
ghost use Rattle.luks_commands.specs.Chosen.{chosen_of, cipher_of, derivation_of};

use crate::open::kib_of;
use luks_formatting::NewCipher;
use luks_making::{Argon2Costs, NewDerivation};
use luks_request::{AskedCipher, AskedKdf, AskedKind};

/// The derivation that is chosen for a new keyslot, if one is asked for. The memory that is asked for in
/// MiB is in KiB there.
pub fn chosen_of(asked: Option<AskedKdf>) -> Option<NewDerivation>
    ensures { result ≡ chosen_of asked }
{
    match asked {
        None => None,
        Some(asked) => Some(derivation_of(asked)),
    }
}

fn derivation_of(asked: AskedKdf) -> NewDerivation
    ensures { result ≡ derivation_of asked }
{
    let asked = match asked {
        AskedKdf::Pbkdf2 { iterations } => return NewDerivation::Pbkdf2 { iterations },
        AskedKdf::Argon2(asked) => asked,
    };
    let costs = Argon2Costs {
        time: asked.passes,
        memory: kib_of(asked.memory),
        cpus: asked.lanes,
    };
    match asked.kind {
        AskedKind::Argon2i => NewDerivation::Argon2i(costs),
        AskedKind::Argon2id => NewDerivation::Argon2id(costs),
    }
}

/// The cipher that is asked for.
pub fn cipher_of(asked: AskedCipher) -> NewCipher
    ensures { result ≡ cipher_of asked }
{
    match asked {
        AskedCipher::XtsPlain64 => NewCipher::XtsPlain64,
        AskedCipher::XtsPlain => NewCipher::XtsPlain,
        AskedCipher::CbcEssiv => NewCipher::CbcEssiv,
        AskedCipher::CbcPlain64 => NewCipher::CbcPlain64,
        AskedCipher::CbcPlain => NewCipher::CbcPlain,
    }
}
