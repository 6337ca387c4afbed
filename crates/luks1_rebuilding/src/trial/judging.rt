//! Whether any combination gives a header.
ghost use Rattle.std.specs.Prelude.{◌≡◌, ◌≤◌, List, Some, false, length, unwrap_or, IfErr, OnOk};
ghost use Rattle.luks_area.specs.First.{IsLeast};
ghost use Rattle.luks1_header.specs.Header1.{luks1_size};
ghost use Rattle.luks1_rebuilding.specs.RebuildFaults.{is_rebuild_failure, rebuild_key};
ghost use Rattle.luks1_rebuilding.specs.declared.rebuild_fault.Rebuild1Fault.{Rebuild1Fault as TheFault};
ghost use Rattle.luks1_rebuilding.specs.TrialFaults.{IsFaultOfAll};
ghost use Rattle.luks1_rebuilding.specs.Tried.{bytes_of, IsUsable};

use crate::rebuild_fault::Rebuild1Fault;
use crate::trial::combinations::owned;
use arrayvec::ArrayString;
use luks_signatures::is_reencrypting;
use luks1_mending::{Given, has_signs, mended_header};

/// Refuses what no combination mends, of the first 592 bytes of a volume of `total` bytes.
pub(crate) fn judge(header: &[u8], total: u64, given: &Given) -> Result<(), Rebuild1Fault>
    requires long { length header.now ≡ luks1_size }
    requires room { luks1_size ≤ total }
    ensures own { IfErr result (λ f. is_rebuild_failure f ≡ false) }
    ensures fault { IfErr result (IsLeast rebuild_key (IsFaultOfAll header.now total given.now)) }
    ensures faultless { OnOk result ((f : TheFault)
        → IsFaultOfAll header.now total given.now f → ⊥) }
{
    if is_reencrypting(header) {
        return Err(Rebuild1Fault::Reencrypting);
    }
    if !has_signs(header, total) {
        return Err(Rebuild1Fault::NoHeader);
    }
    match mended_header(header, total, &usable(given)) {
        Ok(_) => Ok(()),
        Err(fault) => Err(Rebuild1Fault::from(fault)),
    }
}

/// What is given, completed by texts and a length that a header may have.
fn usable(given: &Given) -> Given
    ensures { IsUsable given.now result }
{
    Given {
        cipher_name: Some(given_or(given.cipher_name, "aes")),
        cipher_mode: Some(given_or(given.cipher_mode, "xts-plain64")),
        hash: Some(given_or(given.hash, "sha256")),
        key_bytes: Some(given.key_bytes.unwrap_or(64)),
        payload: given.payload,
        uuid: given.uuid,
    }
}

/// The text that is given, else this one.
fn given_or(given: Option<ArrayString<32>>, text: &str) -> ArrayString<32>
    requires { length text.now ≤ 32 }
    ensures { result.bytes ≡ unwrap_or (bytes_of given) text.now }
{
    match given {
        Some(given) => given,
        None => owned(text),
    }
}
