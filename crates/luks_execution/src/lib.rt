//! The program `luks` over values: what the command that a command line asks for answers, and the JSON object
//! that `check --json` and `open --json` print of an answer and of what standard error says beside it. The
//! files are opened by whoever calls this, and the answer is printed by whoever calls it.
#![tactic(auto)]

mod execution;
mod members;
mod object;
mod parted;
mod texts;

pub use execution::execute;
pub use luks_commands::{
    Answer, CountingPrinter, InputFault, Inputs, Printer, Reason, Refusal, Status, Unprinted, end,
    first_bytes, first_line,
};
pub use luks_header_commands::{DerivationProgress, Progress, SearchProgress, Tally, Untold};
pub use luks_keeping_commands::{MakesFile, Unmade};
pub use luks_request::{
    BackingUp, Command, Comparing, Converting, EditRequest, Editing, KeepingKey, KeepingToken,
    Line, Luks1Fields, Making, Meant, NewVersion, Rebuilding, Restoring, ShowAs,
};
pub use luks_signatures::OtherUse;
pub use luks_volume::Data;
pub use object::answer_json;
