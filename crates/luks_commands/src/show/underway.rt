//! `show` of a volume in whose metadata something is under way.
ghost use Rattle.std.specs.Prelude.{◌≢◌};
ghost use Rattle.luks_commands.specs.Answer.{answer_status};
ghost use Rattle.luks_commands.specs.UnderwayShown.{IsCopyAsJson, IsCopyMapped, IsCopyShown, IsListingOf, IsTokenGiven};

use crate::answers::{Answer, Refusal, Status};
use crate::underway_shown::UnderwayShown;
use luks_edit::EditFault;
use luks_map::HeaderMap;
use luks_request::ShowAs;
use luks_underway_show::{
    Lines, UnderwayListing, UnderwayTokens, underway_json, underway_token_text,
};
use luks_underway_tables::UnderwayTable;
use luks_wide_reading::UnderwayCopy;
use std::alloc::Global;

/// What is shown in this form of the copy that counts of a volume of `total` bytes.
pub(crate) fn show_underway(alloc: Global, form: ShowAs, total: u64, copy: UnderwayCopy) -> Answer
    ensures answers { IsCopyShown form copy total result }
    ensures kinds { answer_status result ≢ Status.NotInStep }
{
    match form {
        ShowAs::Lines => Answer::Underway(UnderwayShown::Listed(listing_of(copy, Lines::Few))),
        ShowAs::All => Answer::Underway(UnderwayShown::Listed(listing_of(copy, Lines::All))),
        ShowAs::Tokens => Answer::Underway(UnderwayShown::Tokens(UnderwayTokens(copy.meta))),
        ShowAs::Token(number) => token(alloc, &copy, number),
        ShowAs::Map => map(&copy, total),
        ShowAs::Tables => Answer::Underway(UnderwayShown::Tables(UnderwayTable {
            meta: copy.meta,
            end: total,
        })),
        ShowAs::Json => json(alloc, copy),
    }
}

fn listing_of(copy: UnderwayCopy, lines: Lines) -> UnderwayListing
    ensures { IsListingOf copy lines result }
{
    UnderwayListing {
        header: copy.header,
        copies: copy.copies,
        meta: copy.meta,
        lines,
    }
}

fn map(copy: &UnderwayCopy, total: u64) -> Answer
    ensures answers { IsCopyMapped copy.now total result }
    ensures kinds { answer_status result ≢ Status.NotInStep }
{
    Answer::Mapped(HeaderMap::of_underway(copy.header.hdr_size, &copy.meta, total))
}

/// The text of the token with this number, or that there is none.
fn token(alloc: Global, copy: &UnderwayCopy, number: u8) -> Answer
    ensures answers { IsTokenGiven number copy.now result }
    ensures kinds { answer_status result ≢ Status.NotInStep }
{
    if number > 31 {
        return Answer::Refused(Refusal::Edit(EditFault::NoSuchToken));
    }
    match underway_token_text(alloc, &copy.meta, number) {
        Ok(Some(text)) => Answer::Json(text),
        Ok(None) => Answer::Refused(Refusal::Edit(EditFault::NoSuchToken)),
        Err(_) => Answer::NoMemory,
    }
}

fn json(alloc: Global, copy: UnderwayCopy) -> Answer
    ensures answers { IsCopyAsJson copy result }
    ensures kinds { answer_status result ≢ Status.NotInStep }
{
    match underway_json(alloc, listing_of(copy, Lines::Few)) {
        Ok(text) => Answer::Json(text),
        Err(_) => Answer::NoMemory,
    }
}
