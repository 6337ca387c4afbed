//! What an edit of a volume is, and why one is refused: the types and words that both versions of
//! LUKS share.
#![tactic(auto)]

mod deed;
mod edit;
mod edit_fault;
mod giving;
mod laws;
mod new_uuid;

pub use deed::{Deed, Place, Removed, Rewritten, Sealed};
pub use edit::{
    Done, Edit, Opener, Passphrase, Secret, SecretKind, Step, VolumeKey, chosen_or, opener_of,
};
pub use edit_fault::{EditFault, RunFault};
pub use giving::{give_within, lock_fault, own_key};
pub use laws::secrets_answer_once;
pub use luks_making::{
    Argon2Costs, AskedDerivation, Change, LEAST_ITERATIONS, NewDerivation, Priority,
};
pub use new_uuid::{NewUuid, judge_uuid, uuid_field_after, uuid_need};
