//! Tests of lists of edits of small volumes, beside the model in testdata/oracle. They are a crate of their own so
//! that no other is proved a second time for them. The transcript `edits-lists` has what each edit leaves, by
//! each hash.
#![tactic(auto)]

#[cfg(test)]
mod answers;
#[cfg(test)]
mod luks1;
#[cfg(test)]
mod luks2;
#[cfg(test)]
mod rows;
#[cfg(test)]
mod runs;
#[cfg(test)]
mod runs_without_memory;
