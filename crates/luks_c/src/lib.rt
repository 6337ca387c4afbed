//! The calls of this repository for programs in C, over ranges of a volume, which the caller read. `luks.h`
//! says what a caller owes.
#![tactic(auto)]

mod backing_up;
mod checking;
mod comparing;
mod converting;
mod editing;
mod exporting;
mod finding;
mod formatting;
mod giving;
mod matching;
mod needing;
mod opening;
mod reading;
mod rebuilding;
mod rebuilding1;
mod restoring;
mod signature;
mod texts;
