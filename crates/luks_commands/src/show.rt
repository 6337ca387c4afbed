//! The command `show`.
ghost use Rattle.std.specs.Prelude.{◌≢◌, ◌+◌, ◌<◌, ◌^◌, IfErr};
ghost use Rattle.std.specs.Result.{ForOk};
ghost use Rattle.luks_area.specs.Device.{IsUnchanged};
ghost use Rattle.luks_commands.specs.Answer.{answer_status};
ghost use Rattle.luks_commands.specs.Files.{KeepsVolume};
ghost use Rattle.luks_commands.specs.ShowAnswers.{AnswersShow, IsAsJson, IsAsMap, IsAsTables, IsAsToken, IsAsTokens, IsHeaderAnswer, IsInFull, IsShownAs, IsVolumeShown};
ghost use Rattle.luks_reading.specs.Header.{IsAcceptedHeader};

mod underway;

use crate::answers::{Answer, Refusal, Status, refused, unread};
use crate::inputs::InputFault;
use crate::underway_refusal::UnderwayRefusal;
use luks_edit::EditFault;
use luks_map::HeaderMap;
use luks_reading::{CheckFault, Device, Header, Luks1};
use luks_request::ShowAs;
use luks_show::{FullListing, Listing, TokenListing, json_text, token_text};
use luks_wide_reading::{WideHeader, WideReadFault, read_wide_header};
use std::alloc::Global;
use std::io::Write;
use underway::show_underway;

/// Answers what the header of the volume of this name says, in this form.
///
/// It isn't inlined, so that it takes no stack where another command runs.
#[inline(never)]
pub fn run<D: Device, E: Write>(
    alloc: Global,
    volume: &mut Result<D, InputFault>,
    name: &str,
    form: ShowAs,
    err: &mut E,
) -> Answer
    requires { ForOk volume.old (λ d. D.failed d + 1 < 2 ^ 64) }
    ensures unchanged { KeepsVolume D.tells D.size D.bytes D.unsettled volume.old volume.new }
    ensures kinds { answer_status result ≢ Status.NotInStep }
    ensures unread { IfErr volume.old (λ _. answer_status result ≢ Status.Done) }
    ensures answers { AnswersShow form D.tells D.bytes D.failed volume.old volume.new result }
{
    match volume {
        Ok(device) => show_device(alloc, device, name, form, err),
        Err(fault) => unread(*fault, name, err),
    }
}

/// The answer in this form, of a volume of `total` bytes, where it was one for the lines.
fn shown_as(alloc: Global, form: ShowAs, total: u64, answer: Answer) -> Answer
    ensures answers { IsShownAs form total answer result }
    ensures kinds { answer_status answer ≢ Status.NotInStep
        → answer_status result ≢ Status.NotInStep }
{
    match form {
        ShowAs::Lines => answer,
        ShowAs::All => in_full(answer),
        ShowAs::Map => as_map(total, answer),
        ShowAs::Tables => as_tables(answer),
        ShowAs::Tokens => as_tokens(answer),
        ShowAs::Token(number) => as_token(alloc, number, answer),
        ShowAs::Json => as_json(alloc, answer),
    }
}

fn in_full(answer: Answer) -> Answer
    ensures answers { IsInFull answer result }
    ensures kinds { answer_status answer ≢ Status.NotInStep
        → answer_status result ≢ Status.NotInStep }
{
    match answer {
        Answer::Listed(listing) => Answer::ListedFully(FullListing(listing)),
        answer => answer,
    }
}

fn as_map(total: u64, answer: Answer) -> Answer
    ensures answers { IsAsMap total answer result }
    ensures kinds { answer_status answer ≢ Status.NotInStep
        → answer_status result ≢ Status.NotInStep }
{
    match answer {
        Answer::Listed(listing) => Answer::Mapped(HeaderMap::of(&listing, total)),
        answer => answer,
    }
}

/// That nothing is under way in a volume that is listed.
fn as_tables(answer: Answer) -> Answer
    ensures answers { IsAsTables answer result }
    ensures kinds { answer_status answer ≢ Status.NotInStep
        → answer_status result ≢ Status.NotInStep }
{
    match answer {
        Answer::Listed(_) => Answer::Refused(Refusal::NotUnderWay),
        answer => answer,
    }
}

fn as_tokens(answer: Answer) -> Answer
    ensures answers { IsAsTokens answer result }
    ensures kinds { answer_status answer ≢ Status.NotInStep
        → answer_status result ≢ Status.NotInStep }
{
    match answer {
        Answer::Listed(listing) => Answer::Tokens(TokenListing(listing)),
        answer => answer,
    }
}

/// The text of the token with this number, or that there is none.
fn as_token(alloc: Global, number: u8, answer: Answer) -> Answer
    ensures answers { IsAsToken number answer result }
    ensures kinds { answer_status answer ≢ Status.NotInStep
        → answer_status result ≢ Status.NotInStep }
{
    match answer {
        Answer::Listed(listing) => {
            if number > 31 {
                return Answer::Refused(Refusal::Edit(EditFault::NoSuchToken));
            }
            match token_text(alloc, &listing, number) {
                Ok(Some(text)) => Answer::Json(text),
                Ok(None) => Answer::Refused(Refusal::Edit(EditFault::NoSuchToken)),
                Err(_) => Answer::NoMemory,
            }
        }
        answer => answer,
    }
}

fn as_json(alloc: Global, answer: Answer) -> Answer
    ensures answers { IsAsJson answer result }
    ensures kinds { answer_status answer ≢ Status.NotInStep
        → answer_status result ≢ Status.NotInStep }
{
    match answer {
        Answer::Listed(listing) => match json_text(alloc, listing) {
            Ok(text) => Answer::Json(text),
            Err(_) => Answer::NoMemory,
        },
        answer => answer,
    }
}

/// Reads the header by the wider reading: what it reads as ever is shown as ever, and of a volume in which
/// something is under way the copy that counts.
fn show_device<D: Device, E: Write>(
    alloc: Global,
    device: &mut D,
    name: &str,
    form: ShowAs,
    err: &mut E,
) -> Answer
    requires { D.failed device.old + 1 < 2 ^ 64 }
    ensures unchanged { IsUnchanged D.tells D.size D.bytes D.unsettled device.old device.new }
    ensures kinds { answer_status result ≢ Status.NotInStep }
    ensures answers { IsVolumeShown form D.tells (D.bytes device.old)
        (D.failed device.old) (D.failed device.new) result }
{
    let answer = match read_wide_header(alloc, device) {
        Ok(WideHeader::Narrow(header)) => listed(header, name, err),
        Ok(WideHeader::Underway(copy)) => return show_underway(alloc, form, device.len(), copy),
        Err(WideReadFault::Read(fault)) => refused(CheckFault::from(fault), name, err),
        Err(WideReadFault::Underway { fault, .. }) => {
            return Answer::Refused(Refusal::Underway(UnderwayRefusal::Metadata(fault)));
        }
    };
    shown_as(alloc, form, device.len(), answer)
}

/// The answer by lines of a header in which nothing is under way.
fn listed<E: Write>(header: Header, name: &str, err: &mut E) -> Answer
    requires { IsAcceptedHeader header }
    ensures answers { IsHeaderAnswer header result }
    ensures kinds { answer_status result ≢ Status.NotInStep }
{
    match header {
        Header::Luks1(bytes) => match Luks1::read(&bytes) {
            Ok(header) => Answer::Listed(Listing::Luks1(header)),
            Err(fault) => refused(CheckFault::from(fault), name, err),
        },
        Header::Luks2(copy) => Answer::Listed(Listing::Luks2(copy)),
    }
}
