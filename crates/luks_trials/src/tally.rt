//! How many derivations a search makes, and who is told of them.
ghost use Rattle.std.specs.Prelude.{◌≡◌, ◌+◌, ◌≤◌, OnErr, OnOk};

/// As many derivations were made as may be.
#[derive(Debug, Clone, Copy, PartialEq, Eq)]
pub struct Spent;

/// How many derivations a search may make, and how many it has made. It can't be copied, so that each
/// is counted once.
#[derive(Drop)]
pub struct Tally {
    done: u32,
    most: u32,
    ghost within: { done ≤ most },
}

impl Tally {
    ghost use Rattle.luks_trials.specs.Tallies.{done_of, most_of};

    /// None is made yet of so many.
    pub fn new(most: u32) -> Tally
        ensures done { done_of result ≡ 0 }
        ensures most { most_of result ≡ most }
    {
        Tally { done: 0, most }
    }

    /// How many were made.
    pub fn done(&self) -> u32
        ensures value { result ≡ done_of self.now }
        ensures within { result ≤ most_of self.now }
    {
        self.done
    }

    /// How many may be made.
    pub fn most(&self) -> u32
        ensures { result ≡ most_of self.now }
    {
        self.most
    }

    /// Counts one more, that is about to be made. Refused where as many were made as may be.
    pub fn count(&mut self) -> Result<(), Spent>
        ensures most { most_of self.new ≡ most_of self.old }
        ensures counted { OnOk result (done_of self.new ≡ done_of self.old + 1) }
        ensures same { OnErr result (done_of self.new ≡ done_of self.old) }
        ensures spent { OnErr result (done_of self.old ≡ most_of self.old) }
    {
        if self.done == self.most {
            return Err(Spent);
        }
        self.done += 1;
        Ok(())
    }
}

/// Who is told how far a search is.
pub trait Progress {
    /// A derivation is about to be made, which is counted.
    fn counts(&mut self, tally: &Tally);
}

/// Tells nobody.
#[derive(Clone, Copy, PartialEq, Eq)]
pub struct Untold;

impl Progress for Untold {
    fn counts(&mut self, _tally: &Tally) {}
}
