//! Tests of edits of small volumes on devices that fail and with refused memory. They stand here so that
//! no crate is proved a second time for them.
#![tactic(auto)]

#[cfg(test)]
mod erasing;
#[cfg(test)]
mod failing_calls;
#[cfg(test)]
mod losing_edits;
#[cfg(test)]
mod losing_formats;
#[cfg(test)]
mod refused_memory;
#[cfg(test)]
mod stray;
#[cfg(test)]
mod trials;
