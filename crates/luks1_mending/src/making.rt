//! The whole header.
ghost use Rattle.std.specs.Prelude.{◌≡◌, ◌<◌, ◌≤◌, ℕ, List, length, IfErr, IfOk, OnOk};
ghost use Rattle.luks_area.specs.First.{IsLeast};
ghost use Rattle.luks1_header.specs.Faults.{head_key};
ghost use Rattle.luks1_header.specs.Header1.{luks1_size, mk_digest_iterations_of, IsLuks1};
ghost use Rattle.luks1_header.specs.Written.{WritesLuks1};
ghost use Rattle.luks1_header.specs.declared.fault.HeadFault.{HeadFault as TheFault};
ghost use Rattle.luks1_mending.specs.Judged.{AreTaken};
ghost use Rattle.luks1_mending.specs.Made.{IsMade, IsMadeCommon};
ghost use Rattle.luks1_mending.specs.Taken.{taken_key_bytes, IsFieldFault};

use crate::common::{
    MK_DIGEST, MK_DIGEST_SALT, Texts, digest_iterations, key_bytes, payload_offset, taken_texts,
};
use crate::given::Given;
use crate::mended::made_slots;
use luks1_header::fields::array_at;
use luks1_header::{HeadFault, Luks1, Luks1Common};

/// The header that is made of the first 592 bytes of a volume of `total` bytes and of what is given.
///
/// What is given wins over what stands. Refused by the first of `Text`, `KeyBytes` and
/// `Iterations(Digest)` where nothing usable stands or is given. A keyslot that breaks its own rules,
/// or whose area lies outside or meets that of one that is kept and comes before it, becomes a disabled one.
pub fn mended_header(header: &[u8], total: u64, given: &Given) -> Result<Luks1, HeadFault>
    requires { length header.now ≡ luks1_size }
    ensures made { IfOk result (IsMade header.now total given.now) }
    ensures header { IfOk result (λ d. (b : List ℕ) → WritesLuks1 b d → IsLuks1 b d) }
    ensures fault { IfErr result (IsLeast head_key (IsFieldFault header.now given.now)) }
    ensures faultless { OnOk result ((f : TheFault) → IsFieldFault header.now given.now f → ⊥) }
{
    let texts = taken_texts(header, given)?;
    let key_bytes = key_bytes(header, given)?;
    let iterations = digest_iterations(header)?;
    Ok(Luks1 {
        common: common_of(header, given, &texts, key_bytes, iterations),
        slots: made_slots(header, key_bytes, total),
    })
}

/// The fields before the keyslots. Those that may be refused are judged.
fn common_of(
    header: &[u8],
    given: &Given,
    texts: &Texts,
    key_bytes: u32,
    iterations: u32,
) -> Luks1Common
    requires long { length header.now ≡ luks1_size }
    requires texts { AreTaken header.now given.now texts.now }
    requires key { key_bytes ≡ taken_key_bytes header.now given.now }
    requires key_at_least { 1 ≤ key_bytes }
    requires key_at_most { key_bytes ≤ 128 }
    requires iterations { iterations ≡ mk_digest_iterations_of header.now }
    requires iterated { 1 ≤ iterations }
    ensures { IsMadeCommon header.now given.now result }
{
    Luks1Common {
        cipher_name: texts.cipher_name,
        cipher_mode: texts.cipher_mode,
        hash_spec: texts.hash_spec,
        payload_offset: payload_offset(header, given),
        key_bytes,
        mk_digest: array_at(header, MK_DIGEST),
        mk_digest_salt: array_at(header, MK_DIGEST_SALT),
        mk_digest_iterations: iterations,
        uuid: texts.uuid,
    }
}
