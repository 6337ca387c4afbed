//! A line of standard error that is written over while a search goes on.
use std::rt::Clock;
use std::time::Duration;

/// How long the line is at least, in milliseconds.
const PAUSE: u128 = 500;

/// Where a search's line stands, and since when.
#[derive(Drop)]
pub(crate) struct WrittenOver<'a, R> {
    rt: &'a R,
    /// When the search began; nothing where nothing is said of it.
    begun: Option<Duration>,
    /// When the line was written last, as milliseconds of the search.
    written: u128,
    /// Whether the line is there.
    stands: bool,
}

impl<'a, R: Clock + Eprint> WrittenOver<'a, R> {
    /// No line of any search.
    pub(crate) fn new(rt: &'a R) -> Self {
        WrittenOver {
            rt,
            begun: None,
            written: 0,
            stands: false,
        }
    }

    /// A search begins now; nothing is said of one that isn't wanted.
    pub(crate) fn begin(&mut self, wanted: bool) {
        self.begun = if wanted {
            self.rt.monotonic().ok()
        } else {
            None
        };
        self.written = 0;
    }

    /// The milliseconds since the search began, where something is said of it.
    pub(crate) fn elapsed(&self) -> Option<u128> {
        let now = self.rt.monotonic().ok()?;
        Some(now.saturating_sub(self.begun?).as_millis())
    }

    /// The time since it began, if its line is to be written now.
    pub(crate) fn due(&self) -> Option<u128> {
        let elapsed = self.elapsed()?;
        if elapsed.saturating_sub(self.written) < PAUSE {
            return None;
        }
        Some(elapsed)
    }

    /// The line was written after so many milliseconds.
    pub(crate) fn set_written(&mut self, elapsed: u128) {
        self.written = elapsed;
        self.stands = true;
    }

    /// Takes the line away.
    pub(crate) fn clear(&mut self) {
        if self.stands {
            let _ = eprint!(self.rt; "\r{:60}\r", "");
            self.stands = false;
        }
    }
}
