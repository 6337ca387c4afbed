//! What `find` is asked for.

use clap::ArgMatches;
use luks_request::Place;

/// Which disk is searched, and for what.
#[derive(Debug, Clone, Copy)]
pub struct Search<'a> {
    /// The file of the disk, the partition or the image.
    pub disk: &'a str,
    /// Which bytes of that file are searched.
    pub place: Place,
    /// Whether the fragments of LUKS2 metadata are sought, and not volumes.
    pub fragments: bool,
    /// Whether each fragment is printed as a JSON object, and not as a line.
    pub json: bool,
}

/// That only fragments are printed as JSON objects.
pub(crate) fn wrong_search(given: &ArgMatches<'_>) -> Option<&'static str> {
    if given.get_flag("json") && !given.get_flag("fragments") {
        return Some("the argument '--json' needs '--fragments'");
    }
    None
}
