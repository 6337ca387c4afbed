//! Keyslots of the type `reencrypt`: what is under way, and which way it goes. They hold no key.

ghost use Rattle.std.specs.Prelude.{◌≡◌, IfSome, IsSome};
ghost use Rattle.serde_json.specs.View.{view};
ghost use Rattle.luks_underway.specs.Reencryptions.{direction_in, direction_of, IsReencryptArea, IsReencryption, mode_in, mode_of, TellsReencryptArea, TellsReencryption};

use crate::member::{has_priority, has_type, text_inside};
use crate::resilience::{Resilience, read_resilience};
use luks_json::{decimal_in, number_in};
use luks_rules::{Member, Outer, member_at};
use serde_json::Value;

/// What is done with the data.
#[derive(Clone, Copy, PartialEq, Eq)]
pub enum Mode {
    /// From one key to another.
    Reencrypt,
    /// The data had no encryption and gets a key.
    Encrypt,
    /// The data had a key and gets no encryption.
    Decrypt,
}

/// Where it begins.
#[derive(Clone, Copy, PartialEq, Eq)]
pub enum Direction {
    /// At the front of the data.
    Forward,
    /// At its end.
    Backward,
}

/// The area that is kept for mending what broke off.
#[derive(Clone, Copy)]
pub struct ReencryptArea<'a> {
    /// Where it begins, in bytes.
    pub offset: u64,
    /// Its length in bytes.
    pub size: u64,
    /// What it holds.
    pub resilience: Resilience<'a>,
}

/// The members of a keyslot of the type `reencrypt` (LUKS2 On-Disk Format 1.1, 3.2.2).
#[derive(Clone, Copy)]
pub struct Reencryption<'a> {
    /// What is done with the data.
    pub mode: Mode,
    /// Where it begins.
    pub direction: Direction,
    /// The area by which it is mended.
    pub area: ReencryptArea<'a>,
}

/// The members of a keyslot of the type `reencrypt`; none where one breaks its rule.
pub fn read_reencryption(object: &Value) -> Option<Reencryption<'_>>
    ensures tells { IfSome result (λ k. TellsReencryption (view object.now) k) }
    ensures there { IsReencryption (view object.now) → IsSome result }
{
    if !has_type(object, Outer::Top, "reencrypt") || !has_priority(object) {
        return None;
    }
    number_in(member_at(object, Outer::Top, Member::KeySize), 1, 1)?;
    let mode = mode_at(object)?;
    let direction = direction_at(object)?;
    let area = read_area(object)?;
    Some(Reencryption {
        mode,
        direction,
        area,
    })
}

/// The mode that the member `mode` tells.
pub fn mode_at(object: &Value) -> Option<Mode>
    ensures { result ≡ mode_in (view object.now) }
{
    mode_named(text_inside(object, Outer::Top, "mode")?)
}

fn mode_named(text: &str) -> Option<Mode>
    ensures { result ≡ mode_of text.now }
{
    if text == "reencrypt" {
        Some(Mode::Reencrypt)
    } else if text == "encrypt" {
        Some(Mode::Encrypt)
    } else if text == "decrypt" {
        Some(Mode::Decrypt)
    } else {
        None
    }
}

/// The direction that the member `direction` tells.
pub fn direction_at(object: &Value) -> Option<Direction>
    ensures { result ≡ direction_in (view object.now) }
{
    direction_named(text_inside(object, Outer::Top, "direction")?)
}

fn direction_named(text: &str) -> Option<Direction>
    ensures { result ≡ direction_of text.now }
{
    if text == "forward" {
        Some(Direction::Forward)
    } else if text == "backward" {
        Some(Direction::Backward)
    } else {
        None
    }
}

fn read_area(object: &Value) -> Option<ReencryptArea<'_>>
    ensures tells { IfSome result (λ k. TellsReencryptArea (view object.now) k) }
    ensures there { IsReencryptArea (view object.now) → IsSome result }
{
    let offset = decimal_in(member_at(object, Outer::Area, Member::Offset))?;
    let size = decimal_in(member_at(object, Outer::Area, Member::Size))?;
    let resilience = read_resilience(object)?;
    Some(ReencryptArea {
        offset,
        size,
        resilience,
    })
}
