//! The JSON object of an answer, as a text.
ghost use Rattle.std.specs.Prelude.{map, string_bytes, IfOk};
ghost use Rattle.serde_json.specs.View.{view};
ghost use Rattle.luks_execution.specs.AnswerValue.{IsAnswerText, IsAnswerValue};

use crate::members::{accepted_value, bare_value, refused_value, slot_value};
use crate::texts::texts_value;
use luks_commands::Answer;
use luks_show::unsteering;
use serde_json::Value;
use std::alloc::{AllocError, Global};

/// The JSON object of the answer with these hints, in the compact form and without a newline. A hint
/// is a line of standard error, without its newline. Characters that steer a terminal are escaped in it.
///
/// Takes memory for the object, and for its text.
pub fn answer_json(alloc: Global, answer: &Answer, hints: &[&str]) -> Result<String, AllocError>
    ensures { IfOk result (λ text. IsAnswerText answer.now (map (λ hint. hint.now) hints.now)
        (string_bytes text)) }
{
    let value = answer_value(alloc, answer, hints)?;
    let written = value.to_string(alloc)?;
    unsteering(alloc, written.as_str())
}

fn answer_value(alloc: Global, answer: &Answer, hints: &[&str]) -> Result<Value, AllocError>
    ensures { IfOk result (λ v. IsAnswerValue answer.now (map (λ hint. hint.now) hints.now)
        (view v)) }
{
    let hints = texts_value(alloc, hints)?;
    let status = answer.status() as u8;
    match answer {
        Answer::Accepted { version, areas } => accepted_value(
            alloc, *version, *areas, hints, status,
        ),
        Answer::Refused(refusal) => refused_value(alloc, refusal, hints, status),
        Answer::Opens(n) => slot_value(alloc, "opens", *n, hints, status),
        Answer::Closed(n) => slot_value(alloc, "does not open", *n, hints, status),
        Answer::Done(Some(n)) => slot_value(alloc, "done", *n, hints, status),
        Answer::Done(None) => bare_value(alloc, "done", hints, status),
        Answer::NoneOpens => bare_value(alloc, "no slot opens", hints, status),
        Answer::Matches => bare_value(alloc, "key matches", hints, status),
        Answer::Differs => bare_value(alloc, "key does not match", hints, status),
        Answer::Listed(_)
        | Answer::ListedFully(_)
        | Answer::Mapped(_)
        | Answer::Tokens(_)
        | Answer::Json(_)
        | Answer::Underway(_) => { bare_value(alloc, "shown", hints, status) }
        Answer::Compared(_) => bare_value(alloc, "compared", hints, status),
        Answer::Rescued(_) => bare_value(alloc, "rescued", hints, status),
        Answer::DeviceFault => bare_value(alloc, "device fault", hints, status),
        Answer::NoMemory => bare_value(alloc, "no memory", hints, status),
    }
}
