//! Digests: what a volume key is told by.

ghost use Rattle.std.specs.Prelude.{◌≡◌, IfSome, IsSome};
ghost use Rattle.serde_json.specs.View.{view};
ghost use Rattle.luks_rules.specs.Table.{digest_rows};
ghost use Rattle.luks_json.specs.Names.{IsNameList};
ghost use Rattle.luks_rules.specs.Accepted.{IsRead};
ghost use Rattle.luks_rules.specs.Faults.{member_at};
ghost use Rattle.luks_meta.specs.Says.{TellsDigest};

use crate::member::{bytes_at, has_type, numbers_at, small_at, text_at};
use arrayvec::ArrayVec;
use luks_rules::{Member, Outer};
use serde_json::Value;

/// The members of a digest, which is of the type `pbkdf2`.
#[derive(Drop)]
pub struct Digest<'a> {
    /// The numbers of the keyslots that it names, in the order of its array.
    pub keyslots: ArrayVec<u8, 32>,
    /// The numbers of the segments that it names, in the order of its array.
    pub segments: ArrayVec<u8, 32>,
    /// The name of its hash, as the metadata writes it.
    pub hash: &'a str,
    /// The iterations of PBKDF2, at least 1.
    pub iterations: u32,
    /// The salt of PBKDF2, 1 to 128 bytes.
    pub salt: ArrayVec<u8, 128>,
    /// 20 to 64 bytes.
    pub digest: ArrayVec<u8, 128>,
}

/// The members of a digest; none where one breaks its rule.
pub fn read_digest(object: &Value) -> Option<Digest<'_>>
    ensures tells { IfSome result (λ k. TellsDigest (view object.now) k) }
    ensures there { IsRead digest_rows (view object.now)
        → IsNameList (member_at (view object.now) Outer.Top Member.Keyslots)
        → IsNameList (member_at (view object.now) Outer.Top Member.Segments) → IsSome result }
{
    if !has_type(object, Outer::Top, "pbkdf2") {
        return None;
    }
    let keyslots = numbers_at(object, Member::Keyslots)?;
    let segments = numbers_at(object, Member::Segments)?;
    let hash = text_at(object, Outer::Top, Member::Hash)?;
    let iterations = small_at(object, Outer::Top, Member::Iterations)?;
    let salt = bytes_at(object, Outer::Top, Member::Salt, 1, 128)?;
    let digest = bytes_at(object, Outer::Top, Member::Digest, 20, 64)?;
    Some(Digest {
        keyslots,
        segments,
        hash,
        iterations,
        salt,
        digest,
    })
}
