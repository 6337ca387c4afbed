//! The tokens and digests of a copy in which something is under way: their lines, and the text of a token.

ghost use Rattle.std.specs.Prelude.{◌<◌, IfOk, option_map, string_bytes};
ghost use Rattle.std.specs.Fmt.{WritesOnOk};
ghost use Rattle.luks_rules.specs.declared.table.Section.TheVariants.{Digests, Tokens};
ghost use Rattle.luks_wider.specs.Underways.{content};
ghost use Rattle.luks_underway_show.specs.Shown.{object_listed, section_listed};
ghost use Rattle.luks_underway_show.specs.Tokens.{IsTokenShown};
ghost use Rattle.luks_underway_show.specs.UnderwayLines.{digest_listed, token_listed};

use luks_rules::{Section, object_at};
use luks_show::{DigestLine, TokenLine, unsteering};
use luks_wider::Underway;
use std::alloc::{AllocError, Global};
use std::fmt;

/// Lists each token.
pub(crate) fn list_tokens<W: fmt::Write>(meta: &Underway, f: &mut fmt::Formatter<W>) -> fmt::Result
    ensures { WritesOnOk W.write_str_gives f.old result (section_listed token_listed (content meta.now) Tokens) f.new }
{
    for n in 0..32 {
        list_token(meta, n, f)?;
    }
    Ok(())
}

fn list_token<W: fmt::Write>(meta: &Underway, n: u8, f: &mut fmt::Formatter<W>) -> fmt::Result
    requires { n < 32 }
    ensures { WritesOnOk W.write_str_gives f.old result (object_listed token_listed (content meta.now) Tokens n) f.new }
{
    match meta.token(n) {
        Some(token) => f.write(TokenLine(n, &token)),
        None => Ok(()),
    }
}

/// Lists each digest.
pub(crate) fn list_digests<W: fmt::Write>(meta: &Underway, f: &mut fmt::Formatter<W>) -> fmt::Result
    ensures { WritesOnOk W.write_str_gives f.old result (section_listed digest_listed (content meta.now) Digests) f.new }
{
    for n in 0..32 {
        list_digest(meta, n, f)?;
    }
    Ok(())
}

fn list_digest<W: fmt::Write>(meta: &Underway, n: u8, f: &mut fmt::Formatter<W>) -> fmt::Result
    requires { n < 32 }
    ensures { WritesOnOk W.write_str_gives f.old result (object_listed digest_listed (content meta.now) Digests n) f.new }
{
    match meta.digest(n) {
        Some(digest) => f.write(DigestLine(n, &digest)),
        None => Ok(()),
    }
}

/// The metadata whose tokens are shown; it prints as their lines.
#[derive(Drop)]
pub struct UnderwayTokens(pub Underway);

impl fmt::Display for UnderwayTokens {
    ghost use Rattle.std.specs.Prelude.{Some};

    ghost output = { λ shown. Some (section_listed token_listed (content shown.0) Tokens) };

    fn fmt<W: fmt::Write>(&self, f: &mut fmt::Formatter<W>) -> fmt::Result {
        list_tokens(&self.0, f)
    }
}

/// The text of the token with this number, in the compact form and without a newline, if it is there. Characters
/// that steer a terminal are escaped in it.
///
/// Takes memory for the text.
pub fn underway_token_text(
    alloc: Global,
    meta: &Underway,
    number: u8,
) -> Result<Option<String>, AllocError>
    requires { number < 32 }
    ensures { IfOk result (λ text. IsTokenShown (content meta.now) number (option_map string_bytes text)) }
{
    let Some(token) = object_at(meta.value(), Section::Tokens, number) else {
        return Ok(None);
    };
    let written = token.to_string(alloc)?;
    Ok(Some(unsteering(alloc, written.as_str())?))
}
