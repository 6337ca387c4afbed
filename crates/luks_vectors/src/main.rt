//! Vectors of functions that work on bytes alone: hashes, the splitter, ciphers, Argon2, areas and text
//! fields. `luks_vector_lines` says what a line is.
#![tactic(auto)]

mod areas;
mod argon2;
mod ciphers;
mod derivation;
mod functions;
mod older_hashes;
mod splitter;

use crate::functions::ByteFunctions;
use luks_vector_lines::answer_all;

fn main(rt: HostRuntime) -> Result<(), anyhow::Error> {
    answer_all(&rt, &mut ByteFunctions::new())
}
