//! What tells the volume of a header: its uuid, and the digests of its volume keys.
ghost use Rattle.std.specs.Prelude.{◌≡◌, ◌↔◌, ◌≤◌, ◌<◌, IsTrue, length};
ghost use Rattle.luks_meta.specs.Content.{content};
ghost use Rattle.luks_reading.specs.Header.{IsAcceptedHeader};
ghost use Rattle.luks_keeping.specs.OtherHeaders.{read_uuid};
ghost use Rattle.luks_keeping.specs.SameKeys.{FindsDigest, HasKeyDigest, HasNumbered, IsFirstDigest, IsHeaderDigest};
ghost use Rattle.luks_keeping.specs.SameKeys.{IsIdentity, IsMetaDigest, Shares, SharesAt};

use arrayvec::ArrayVec;
use luks_meta::Meta;
use luks_reading::Header;

/// The place of the digest of the volume key in a LUKS1 header. Its salt follows, and then the uuid's field.
const DIGEST: usize = 112;

const SALT: usize = 132;

const SALT_END: usize = 164;

pub(crate) const UUID: usize = 168;

pub(crate) const UUID_END: usize = 208;

/// A digest of a volume key.
#[derive(Drop)]
pub(crate) struct KeyDigest {
    /// 1 to 128 bytes.
    pub(crate) salt: ArrayVec<u8, 128>,
    /// 20 to 64 bytes.
    pub(crate) bytes: ArrayVec<u8, 128>,
}

/// The uuid and the digests of a header. It holds no metadata, so that one header's can be compared with
/// another's while one of the two is read.
#[derive(Drop)]
pub(crate) struct Identity {
    /// The bytes of the uuid's field.
    pub(crate) uuid: [u8; 40],
    /// The digests of volume keys, by their numbers; the one of LUKS1 has 0.
    pub(crate) digests: [Option<KeyDigest>; 32],
}

/// Those of this header.
pub(crate) fn identity_of(header: &Header) -> Identity
    requires { IsAcceptedHeader header.now }
    ensures { IsIdentity header.now result }
{
    let mut digests: [Option<KeyDigest>; 32] = Default::default();
    for n in 0..32 {
        digests[n as usize] = digest_of(header, n);
    }
    Identity {
        uuid: uuid_of(header),
        digests,
    }
}

/// The bytes of the uuid's field.
fn uuid_of(header: &Header) -> [u8; 40]
    requires { IsAcceptedHeader header.now }
    ensures { result ≡ read_uuid header.now }
{
    match header {
        Header::Luks1(bytes) => {
            let mut uuid = [0; 40];
            uuid.copy_from_slice(&bytes[UUID..UUID_END]);
            uuid
        }
        Header::Luks2(copy) => copy.header.uuid,
    }
}

/// The digest `n` of the header, if it is there.
fn digest_of(header: &Header, n: u8) -> Option<KeyDigest>
    requires accepted { IsAcceptedHeader header.now }
    requires numbered { n < 32 }
    ensures { FindsDigest (IsHeaderDigest header.now n) result }
{
    match header {
        Header::Luks1(bytes) => first_digest(bytes.as_slice(), n),
        Header::Luks2(copy) => meta_digest(&copy.meta, n),
    }
}

/// The one of a LUKS1 header, which has the number 0.
fn first_digest(header: &[u8], n: u8) -> Option<KeyDigest>
    requires { length header.now ≡ 592 }
    ensures { FindsDigest (IsFirstDigest header.now n) result }
{
    if n > 0 {
        return None;
    }
    Some(KeyDigest {
        salt: held(&header[SALT..SALT_END]),
        bytes: held(&header[DIGEST..SALT]),
    })
}

/// The digest `n` of the metadata, if it is there.
fn meta_digest(meta: &Meta, n: u8) -> Option<KeyDigest>
    requires { n < 32 }
    ensures { FindsDigest (IsMetaDigest (content meta.now) n) result }
{
    match meta.digest(n) {
        Some(found) => Some(KeyDigest {
            salt: held(found.salt.as_slice()),
            bytes: held(found.digest.as_slice()),
        }),
        None => None,
    }
}

/// These bytes.
fn held(bytes: &[u8]) -> ArrayVec<u8, 128>
    requires { length bytes.now ≤ 128 }
    ensures { result.items ≡ bytes.now }
{
    let mut held = ArrayVec::new();
    held.try_extend_from_slice(bytes).unwrap();
    held
}

/// Whether the two have one uuid.
pub(crate) fn has_uuid_of(here: &Identity, there: &Identity) -> bool
    ensures { IsTrue result ↔ (there.now.uuid ≡ here.now.uuid) }
{
    has_uuid(here, there.uuid.as_slice())
}

/// Whether these are the bytes of the uuid's field.
pub(crate) fn has_uuid(identity: &Identity, uuid: &[u8]) -> bool
    ensures { IsTrue result ↔ (uuid.now ≡ identity.now.uuid) }
{
    uuid == identity.uuid.as_slice()
}

/// Whether the two have a digest in common.
pub(crate) fn shares_digest(here: &Identity, there: &Identity) -> bool
    ensures { IsTrue result ↔ Shares here.now there.now }
{
    for n in 0..32 {
        if shares_at(here, n, there) {
            return true;
        }
    }
    false
}

/// Whether the digest `n` of the one is a digest of the other.
fn shares_at(here: &Identity, n: usize, there: &Identity) -> bool
    requires { n < 32 }
    ensures { IsTrue result ↔ SharesAt here.now there.now n }
{
    match &here.digests[n] {
        Some(found) => has_digest(there, found.salt.as_slice(), found.bytes.as_slice()),
        None => false,
    }
}

/// Whether one of its digests has these bytes, with this salt.
fn has_digest(identity: &Identity, salt: &[u8], bytes: &[u8]) -> bool
    ensures { IsTrue result ↔ HasKeyDigest identity.now salt.now bytes.now }
{
    for n in 0..32 {
        if is_digest(identity, n, salt, bytes) {
            return true;
        }
    }
    false
}

/// Whether its digest `n` has.
fn is_digest(identity: &Identity, n: usize, salt: &[u8], bytes: &[u8]) -> bool
    requires { n < 32 }
    ensures { IsTrue result ↔ HasNumbered identity.now n salt.now bytes.now }
{
    match &identity.digests[n] {
        Some(found) => found.salt.as_slice() == salt && found.bytes.as_slice() == bytes,
        None => false,
    }
}
