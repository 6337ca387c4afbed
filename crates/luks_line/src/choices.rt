//! The options of which exactly one has to be given.

/// Options that stand for one another, by its row in `CHOICES`.
#[derive(Clone, Copy)]
pub(crate) enum Choice {
    Passphrase,
    Opener,
    New,
}

impl Choice {
    pub(crate) fn row(self) -> &'static ChoiceRow {
        &CHOICES[self as usize]
    }
}

#[derive(Clone, Copy)]
pub(crate) struct ChoiceRow {
    /// Its name among those of the options, which isn't printed.
    pub(crate) name: &'static str,
    /// The names of its options.
    pub(crate) options: &'static [&'static str],
}

/// In the order of `Choice`.
static CHOICES: [ChoiceRow; 3] = [
    ChoiceRow {
        name: "file of the passphrase",
        options: &["passphrase", "passphrase-line"],
    },
    ChoiceRow {
        name: "file of the passphrase or the key",
        options: &["passphrase", "passphrase-line", "key"],
    },
    ChoiceRow {
        name: "file of the new passphrase",
        options: &["new", "new-line"],
    },
];
