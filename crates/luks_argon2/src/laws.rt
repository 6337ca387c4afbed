//! The definitions on small cases.

ghost use Rattle.luks_argon2.specs.Laws.{DigestOfAbc, IndexesFirstBlocks, IndexesLaterBlocks};

/// Does nothing: its contract is what the definitions give on small cases, the standard's digest among
/// them (RFC 7693, appendix A), and references that were worked out by hand from RFC 9106, 3.4.2.
pub fn definitions_give()
    ensures digest { DigestOfAbc }
    ensures first_blocks { IndexesFirstBlocks }
    ensures later_blocks { IndexesLaterBlocks }
{}
