//! Vectors of functions that work on a device, on the headers that stand in it, and on a keyslot.
//! `luks_vector_lines` says what a line is.
#![tactic(auto)]

mod functions;
mod headers;
mod keyslot;
mod volume;

use crate::functions::VolumeFunctions;
use luks_vector_lines::answer_all;

fn main(rt: HostRuntime) -> Result<(), anyhow::Error> {
    answer_all(&rt, &mut VolumeFunctions::new(rt.alloc()))
}
