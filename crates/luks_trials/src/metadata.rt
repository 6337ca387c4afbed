//! The metadata of a JSON area, if it has none of its faults.
ghost use Rattle.std.specs.Prelude.{◌≡◌, IfErr, IfOk};
ghost use Rattle.luks_trials.specs.Metadata.{IsMetaOf};

use crate::fault::SearchFault;
use luks_meta::{Meta, MetaFault};
use std::alloc::Global;

/// The metadata of the area, if it has none of its faults.
pub fn meta_of(alloc: Global, json: &[u8]) -> Result<Option<Meta>, SearchFault>
    ensures meta { IfOk result (IsMetaOf json.now) }
    ensures memory { IfErr result (λ f. f ≡ SearchFault.Memory) }
{
    match Meta::read(alloc, json) {
        Ok(meta) => Ok(Some(meta)),
        Err(MetaFault::Memory) => Err(SearchFault::Memory),
        Err(_) => Ok(None),
    }
}
