//! What is said before a search that may take long.
use luks_execution::Command;

/// Says at once how much may be hashed by a command that is to seek longer what checksums vouch for, and that it may
/// be ended: nothing is written before. What a search by a passphrase may take it says itself, once it is known.
pub(crate) fn tell_search<R: Eprint>(rt: &R, command: &Command<'_>) {
    if let Command::Rebuild(rebuilding) = command {
        if rebuilding.thorough && !rebuilding.searches() {
            let _ = eprintln!(rt;
                "luks: at most 1048576 MiB are hashed for what checksums vouch for: Ctrl-C ends it, and nothing is written then"
            );
        }
    }
}
