//! How the key of a keyslot that is made is to be derived: as is chosen, or as that of another.

ghost use Rattle.std.specs.Prelude.{◌≡◌, IfSome};
ghost use Rattle.luks_making.specs.Derivations.{FitsAsked, FitsCosts, FitsNewDerivation, asked_beyond, asked_few_turns, beyond, costs_beyond, few_turns};

/// The least iterations of a keyslot that is made.
pub const LEAST_ITERATIONS: u32 = 1000;

/// What Argon2 costs.
#[derive(Clone, Copy)]
pub struct Argon2Costs {
    /// How many passes over the memory.
    pub time: u32,
    /// The memory in KiB.
    pub memory: u32,
    /// The number of lanes.
    pub cpus: u32,
}

impl Argon2Costs {
    /// Argon2 takes more than so many KiB by them, or they are outside its limits (RFC 9106, 3.1): 8 KiB
    /// for each lane, and 1 to 2^24 - 1 lanes.
    fn are_beyond(&self, allowed: u32) -> bool
        ensures { result ≡ costs_beyond allowed self.now }
    {
        self.memory > allowed
            || self.memory / 8 < self.cpus
            || self.cpus < 1
            || self.cpus > 0xFF_FFFF
    }
}

/// A derivation that is chosen for a keyslot.
#[derive(Clone, Copy)]
pub enum NewDerivation {
    /// PBKDF2, by the hash of the keyslot's splitter.
    Pbkdf2 {
        /// The iterations, at least 1000.
        iterations: u32,
    },
    /// Argon2i, with at least one pass, and at least 8 KiB of memory for each lane.
    Argon2i(Argon2Costs),
    /// Argon2id, likewise.
    Argon2id(Argon2Costs),
}

impl NewDerivation {
    /// It has fewer than 1000 iterations, or no pass.
    pub fn has_few_turns(&self) -> bool
        ensures { result ≡ few_turns self.now }
    {
        match *self {
            NewDerivation::Pbkdf2 { iterations } => iterations < LEAST_ITERATIONS,
            NewDerivation::Argon2i(costs) | NewDerivation::Argon2id(costs) => costs.time < 1,
        }
    }

    /// It is refused where so many KiB of memory are allowed.
    pub fn is_beyond(&self, allowed: u32) -> bool
        ensures { result ≡ beyond allowed self.now }
    {
        match *self {
            NewDerivation::Pbkdf2 { iterations: _ } => false,
            NewDerivation::Argon2i(costs) | NewDerivation::Argon2id(costs) => {
                costs.are_beyond(allowed)
            }
        }
    }
}

/// How the key of a keyslot is to be derived that is sealed again, or made with the members of another.
#[derive(Clone, Copy)]
pub struct AskedDerivation {
    /// The iterations where nothing is chosen: then the keyslot derives as the other one does, PBKDF2 by
    /// so many. Argon2 has none.
    pub iterations: u32,
    /// What is chosen in the place of the other keyslot's derivation.
    pub chosen: Option<NewDerivation>,
}

impl AskedDerivation {
    /// It has fewer than 1000 iterations, or no pass.
    pub fn has_few_turns(&self) -> bool
        ensures { result ≡ asked_few_turns self.now }
    {
        match &self.chosen {
            None => self.iterations < LEAST_ITERATIONS,
            Some(chosen) => chosen.has_few_turns(),
        }
    }

    /// What is chosen is refused where so many KiB of memory are allowed.
    pub fn is_beyond(&self, allowed: u32) -> bool
        ensures { result ≡ asked_beyond allowed self.now }
    {
        match &self.chosen {
            None => false,
            Some(chosen) => chosen.is_beyond(allowed),
        }
    }
}

/// The numbers of what is chosen have the ranges of their types. The function does nothing; its contract
/// is the law.
pub fn chosen_fits(chosen: Option<NewDerivation>)
    ensures { IfSome chosen FitsNewDerivation }
{
    match chosen {
        None => {}
        Some(NewDerivation::Pbkdf2 { iterations: _ }) => {}
        Some(NewDerivation::Argon2i(costs)) => costs_fit(&costs),
        Some(NewDerivation::Argon2id(costs)) => costs_fit(&costs),
    }
}

/// The numbers of what is asked have the ranges of their types. The function does nothing; its contract
/// is the law.
pub fn asked_fits(asked: AskedDerivation)
    ensures { FitsAsked asked }
{
    chosen_fits(asked.chosen);
}

fn costs_fit(costs: &Argon2Costs)
    ensures { FitsCosts costs.now }
{
    let Argon2Costs { time, memory, cpus } = *costs;
}
