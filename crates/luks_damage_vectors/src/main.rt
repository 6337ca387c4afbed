//! What is made of damaged LUKS headers, of either version, and where volumes begin on a disk, by lines that
//! put the volumes and disks together. `luks_vector_lines` says what a line is; the line `on SUBJECT` picks of
//! which subject the lines behind it are: `luks2`, `luks1`, `disk`, `faulty`, `near1` or `near2`. What is owed to the
//! lines of each is printed by `testdata/oracle`: `rebuild_values`, `rebuild1_rows`, `finding_rows`, and of the last
//! two `search_rows`; to those of `faulty`, on disks that can't be read everywhere, it was written by hand.
#![tactic(auto)]

mod bad_disk;
mod disk;
mod given;
mod luks1_headers;
mod luks2_headers;
mod near;
mod subjects;

use crate::subjects::Subjects;
use luks_vector_lines::answer_all;

fn main(rt: HostRuntime) -> Result<(), anyhow::Error> {
    answer_all(&rt, &mut Subjects::new(rt.alloc()))
}
