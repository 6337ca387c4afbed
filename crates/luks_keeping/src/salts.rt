//! The salts of keyslots.
ghost use Rattle.std.specs.Prelude.{◌≡◌, ◌≤◌, ◌<◌, List, ℕ, length};
ghost use Rattle.luks1_header.specs.Header1.{IsLuks1};
ghost use Rattle.luks_meta.specs.Content.{content};
ghost use Rattle.luks_reading.specs.Header.{IsAcceptedHeader};
ghost use Rattle.luks_keeping.specs.Compared.{HasSalt2, IsUsedSalt};
ghost use Rattle.luks_keeping.specs.Judged.{HasFields};
ghost use Rattle.luks_keeping.specs.Salts.{FindsSalt, HasHeaderSalt, HoldsSalts};

use arrayvec::ArrayVec;
use luks_meta::Meta;
use luks_reading::Header;
use luks2_header::{Luks1, SlotState};

/// A keyslot's salt.
#[derive(Drop)]
pub(crate) struct Salt {
    /// 1 to 128 bytes.
    pub(crate) bytes: ArrayVec<u8, 128>,
}

/// The salts by the keyslots' numbers.
pub(crate) fn salts_of(header: &Header) -> [Option<Salt>; 32]
    requires fields { HasFields header.now }
    requires accepted { IsAcceptedHeader header.now }
    ensures { HoldsSalts header.now 32 result }
{
    let mut salts: [Option<Salt>; 32] = Default::default();
    for n in 0..32 {
        salts[n as usize] = salt_of(header, n);
    }
    salts
}

/// The salt of the keyslot `n`, if it is in use.
fn salt_of(header: &Header, n: u8) -> Option<Salt>
    requires fields { HasFields header.now }
    requires accepted { IsAcceptedHeader header.now }
    requires numbered { n < 32 }
    ensures { FindsSalt (HasHeaderSalt header.now n) result }
{
    match header {
        Header::Luks1(bytes) => used_salt(&Luks1::read(bytes.as_slice()).unwrap(), n),
        Header::Luks2(copy) => meta_salt(&copy.meta, n),
    }
}

/// The salt of the keyslot `n` of a LUKS1 header, if it is enabled.
fn used_salt(header: &Luks1, n: u8) -> Option<Salt>
    ensures { (h : List ℕ) → IsLuks1 h header.now → FindsSalt (IsUsedSalt h n) result }
{
    if n >= 8 {
        return None;
    }
    let slot = header.slots[n as usize];
    match slot.state {
        SlotState::Enabled => Some(salt_of_bytes(&slot.salt)),
        SlotState::Disabled => None,
    }
}

/// The salt of the keyslot `n` of the metadata, if it is there.
fn meta_salt(meta: &Meta, n: u8) -> Option<Salt>
    requires { n < 32 }
    ensures { FindsSalt (HasSalt2 (content meta.now) n) result }
{
    match meta.keyslot(n) {
        Some(slot) => Some(salt_of_bytes(slot.kdf.salt.as_slice())),
        None => None,
    }
}

/// A salt of these bytes.
fn salt_of_bytes(bytes: &[u8]) -> Salt
    requires { length bytes.now ≤ 128 }
    ensures { result.bytes.items ≡ bytes.now }
{
    let mut held = ArrayVec::new();
    held.try_extend_from_slice(bytes).unwrap();
    Salt { bytes: held }
}
