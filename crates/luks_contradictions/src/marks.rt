//! What segments are in a reencryption, and how they stand to each other.

ghost use Rattle.std.specs.Prelude.{◌≡◌, ◌+◌, ◌<◌, ◌≤◌, ℕ, false, option_map, MatchOption};
ghost use Rattle.serde_json.specs.View.{view};
ghost use Rattle.luks_rules.specs.Faults.{member_at};
ghost use Rattle.luks_rules.specs.Reading.{number_of, text_of};
ghost use Rattle.luks_rules.specs.Sizes.{IsFirst};
ghost use Rattle.luks_contradictions.specs.Hot.{is_in_hand};
ghost use Rattle.luks_contradictions.specs.Contradictions.{all_below, any_beside, count_marked, end_of, has_beside, has_marked, is_before, is_beside, is_like, is_marked, is_meeting, is_not_behind, is_within, same_number, same_text, size_of, start_of};

use luks_json::{decimal_in, text_in, whole_number_in};
use luks_rules::{Member, Outer, Section, member_at, object_at, type_at};
use luks_underway::{has_flag, is_kept_back};
use serde_json::Value;

/// What a segment may be.
#[derive(Clone, Copy)]
pub(crate) enum Mark {
    There,
    Used,
    Hot,
    Previous,
    Final,
    Moved,
}

/// How another segment may stand to one.
#[derive(Clone, Copy)]
pub(crate) enum Beside {
    LikePrevious,
    LikeFinal,
    AroundFinal,
    Meeting,
}

fn is_marked(mark: Mark, segment: &Value) -> bool
    ensures { result ≡ is_marked mark (view segment.now) }
{
    match mark {
        Mark::There => true,
        Mark::Used => !is_kept_back(segment),
        Mark::Hot => !is_kept_back(segment) && has_flag(segment, "in-reencryption"),
        Mark::Previous => is_kept_back(segment) && has_flag(segment, "backup-previous"),
        Mark::Final => is_kept_back(segment) && has_flag(segment, "backup-final"),
        Mark::Moved => is_kept_back(segment) && has_flag(segment, "backup-moved-segment"),
    }
}

/// Whether the segment with this number is there and has the mark.
pub(crate) fn has_marked(mark: Mark, value: &Value, number: u8) -> bool
    requires { number < 32 }
    ensures { result ≡ has_marked mark (view value.now) number }
{
    match object_at(value, Section::Segments, number) {
        Some(segment) => is_marked(mark, segment),
        None => false,
    }
}

/// The least segment that data is read by with the flag `in-reencryption`: the part in hand.
pub fn first_hot(value: &Value) -> Option<u8>
    ensures { MatchOption result
        ((n : ℕ) → n < 32 → is_in_hand (view value.now) n ≡ false)
        (λ n. IsFirst (is_in_hand (view value.now)) n) }
{
    for number in 0..32u8 {
        if has_marked(Mark::Hot, value, number) {
            return Some(number);
        }
    }
    None
}

/// How many segments have the mark.
pub(crate) fn count_marked(mark: Mark, value: &Value) -> u8
    ensures count { result ≡ count_marked mark (view value.now) }
    ensures few { result ≤ 32 }
{
    let mut count = 0;
    for number in 0..32u8 {
        if has_marked(mark, value, number) {
            count += 1;
        }
    }
    count
}

/// Whether each of the first segments has the mark.
pub(crate) fn all_marked(mark: Mark, value: &Value, count: u8) -> bool
    requires { count ≤ 32 }
    ensures { result ≡ all_below (has_marked mark (view value.now)) count }
{
    for number in 0..count {
        if !has_marked(mark, value, number) {
            return false;
        }
    }
    true
}

fn same_text(one: Option<&str>, other: Option<&str>) -> bool
    ensures { result ≡ same_text (option_map (λ t. t.now) one.entry) (option_map (λ t. t.now) other.entry) }
{
    match (one, other) {
        (Some(one), Some(other)) => one == other,
        (None, None) => true,
        _ => false,
    }
}

fn same_number(one: Option<u64>, other: Option<u64>) -> bool
    ensures { result ≡ same_number one other }
{
    match (one, other) {
        (Some(one), Some(other)) => one == other,
        (None, None) => true,
        _ => false,
    }
}

fn cipher_at(segment: &Value) -> Option<&str>
    ensures { option_map (λ t. t.now) result ≡ text_of (member_at (view segment.now) Outer.Top Member.Encryption) }
{
    text_in(member_at(segment, Outer::Top, Member::Encryption))
}

fn sector_at(segment: &Value) -> Option<u64>
    ensures { result ≡ number_of (member_at (view segment.now) Outer.Top Member.SectorSize) }
{
    whole_number_in(member_at(segment, Outer::Top, Member::SectorSize))
}

/// The segment is like the other, as cryptsetup compares a segment with a backup of it.
fn is_like(segment: &Value, other: &Value) -> bool
    ensures { result ≡ is_like (view segment.now) (view other.now) }
{
    same_text(type_at(segment, Outer::Top), type_at(other, Outer::Top))
        && same_text(cipher_at(segment), cipher_at(other))
        && same_number(sector_at(segment), sector_at(other))
}

fn start_of(segment: &Value) -> Option<u64>
    ensures { result ≡ start_of (view segment.now) }
{
    decimal_in(member_at(segment, Outer::Top, Member::Offset))
}

/// The length, where it isn't up to the end of the device.
pub(crate) fn size_of(segment: &Value) -> Option<u64>
    ensures { result ≡ size_of (view segment.now) }
{
    decimal_in(member_at(segment, Outer::Top, Member::Size))
}

fn end_of(segment: &Value) -> Option<u128>
    ensures { result ≡ end_of (view segment.now) }
{
    match (start_of(segment), size_of(segment)) {
        (Some(start), Some(size)) => Some(start as u128 + size as u128),
        _ => None,
    }
}

fn is_not_behind(one: Option<u128>, other: Option<u128>) -> bool
    ensures { result ≡ is_not_behind one other }
{
    match (one, other) {
        (_, None) => true,
        (None, Some(_)) => false,
        (Some(one), Some(other)) => one <= other,
    }
}

fn wide_start(segment: &Value) -> Option<u128>
    ensures { result ≡ start_of (view segment.now) }
{
    match start_of(segment) {
        Some(start) => Some(start as u128),
        None => None,
    }
}

/// The segment lies within the other.
fn is_within(segment: &Value, other: &Value) -> bool
    ensures { result ≡ is_within (view segment.now) (view other.now) }
{
    is_not_behind(wide_start(other), wide_start(segment))
        && is_not_behind(end_of(segment), end_of(other))
}

/// The segment ends before the other begins.
fn is_before(segment: &Value, other: &Value) -> bool
    ensures { result ≡ is_before (view segment.now) (view other.now) }
{
    match (end_of(segment), wide_start(other)) {
        (Some(end), Some(start)) => end <= start,
        _ => false,
    }
}

fn is_meeting(segment: &Value, other: &Value) -> bool
    ensures { result ≡ is_meeting (view segment.now) (view other.now) }
{
    !is_before(segment, other) && !is_before(other, segment)
}

fn is_beside(beside: Beside, segment: &Value, other: &Value) -> bool
    ensures { result ≡ is_beside beside (view segment.now) (view other.now) }
{
    match beside {
        Beside::LikePrevious => is_marked(Mark::Previous, other) && is_like(segment, other),
        Beside::LikeFinal => is_marked(Mark::Final, other) && is_like(segment, other),
        Beside::AroundFinal => is_marked(Mark::Final, other) && is_within(segment, other),
        Beside::Meeting => is_marked(Mark::Used, other) && is_meeting(segment, other),
    }
}

fn has_beside(beside: Beside, value: &Value, segment: &Value, number: u8) -> bool
    requires { number < 32 }
    ensures { result ≡ has_beside beside (view value.now) (view segment.now) number }
{
    match object_at(value, Section::Segments, number) {
        Some(other) => is_beside(beside, segment, other),
        None => false,
    }
}

/// One of the first segments stands so to the segment.
pub(crate) fn any_beside(beside: Beside, value: &Value, segment: &Value, count: u8) -> bool
    requires { count ≤ 32 }
    ensures { result ≡ any_beside beside (view value.now) (view segment.now) count }
{
    for number in 0..count {
        if has_beside(beside, value, segment, number) {
            return true;
        }
    }
    false
}
