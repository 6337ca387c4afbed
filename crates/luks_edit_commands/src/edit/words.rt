//! Reading the passphrases of an edit.
ghost use Rattle.std.specs.Prelude.{◌≡◌, ◌<◌, ◌^◌, IfOk, IfErr, IfSome, IsSome, length};
ghost use Rattle.luks_commands.specs.Answer.{IsWordless, unread_answer};
ghost use Rattle.luks_request.specs.Named.{edit_passphrase_of};
ghost use Rattle.luks_edit_commands.specs.Editing.{IsTextOf};
ghost use Rattle.luks_commands.specs.Files.{IsLong, IsUnread, IsWhole, OfNamed};

use luks_commands::{Answer, InputFault, PassphraseFault, Refusal, passphrase, unread};
use luks_request::EditRequest;
use luks_wiping::Secret;
use serde_json::{Category, Value};
use std::alloc::Global;
use std::io::{Read, Write};

/// The bytes of the passphrase whose file has this name, none where the edit needs none; or what the
/// command answers without it.
pub(super) fn words<R: Read, E: Write>(
    alloc: Global,
    file: &mut Result<R, InputFault>,
    name: Option<&str>,
    err: &mut E,
) -> Result<Secret, Answer>
    ensures whole { IfOk result (λ p. IfSome name.entry (λ _. IsWhole R.remaining file.old p)) }
    ensures short { IfOk result (λ p. length p < 2 ^ 32) }
    ensures wordless { IfErr result (IsWordless
        (OfNamed name.entry (IsLong R.remaining file.old))
        (λ f. OfNamed name.entry (IsUnread file.old f))) }
{
    let Some(name) = name else {
        return Ok(Secret::new(Vec::new(alloc)));
    };
    match passphrase(alloc, file) {
        Ok(words) => Ok(words),
        Err(PassphraseFault::TooLong) => Err(Answer::Refused(Refusal::LongPassphrase)),
        Err(PassphraseFault::Input(fault)) => Err(unread(fault, name, err)),
    }
}

/// The token whose text the bytes of its file are, where the request has one and they are such a text; or what is
/// answered where memory is refused to it.
pub(super) fn token_of<E: Write>(
    alloc: Global,
    request: &EditRequest<'_>,
    text: &[u8],
    err: &mut E,
) -> Result<Option<Value>, Answer>
    ensures token { IfOk result (IsTextOf request.now text.now) }
    ensures memory { IfErr result (λ a. (a ≡ unread_answer InputFault.NoMemory)
        × IsSome (edit_passphrase_of request.now)) }
{
    let EditRequest::AddToken { token, .. } = *request else {
        return Ok(None);
    };
    match Value::from_slice(alloc, text) {
        Ok(value) => Ok(Some(value)),
        Err(error) => match error.classify() {
            Category::Memory => Err(unread(InputFault::NoMemory, token, err)),
            _ => Ok(None),
        },
    }
}
