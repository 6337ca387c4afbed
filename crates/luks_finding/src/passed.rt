//! What a search passes over, where a disk can't be read.

use crate::finding::Step;

/// Sectors, of 512 bytes, that a search passed over: of what begins there it told nothing.
#[derive(Clone, Copy, PartialEq, Eq)]
pub struct Passed {
    /// The first of them.
    pub from: u64,
    /// The first one behind them.
    pub to: u64,
    /// Whether they themselves were read: a sign may begin there, but not all that it needs could be read.
    pub is_read: bool,
}

/// What a step of a search comes to on a disk that can't be read everywhere.
#[derive(Clone, Copy, PartialEq, Eq)]
pub enum Further {
    /// A step as on a disk that can be read.
    Step(Step),
    /// Some sectors were passed over.
    Passed(Passed),
}
