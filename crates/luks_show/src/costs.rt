//! The further lines of keyslots and segments, which `show --all` prints.
ghost use Rattle.std.specs.Prelude.{Some};
ghost use Rattle.std.specs.Fmt.{WritesOnOk};
ghost use Rattle.luks_show.specs.AllLines.{argon2_line, costs_line, encryption_line, salt_line};

use crate::digits::Hex;
use crate::escaped::Escaped;
use luks_meta::{Argon2, Cost, Encryption};
use std::fmt;

/// What the derivation of the keyslot of this number costs; it prints as its line. Memory is in KiB.
#[derive(Clone, Copy)]
pub struct CostsLine<'a>(pub u8, pub Cost<'a>);

impl fmt::Display for CostsLine<'_> {
    ghost output = { λ l. Some (costs_line l.0 l.1) };

    fn fmt<W: fmt::Write>(&self, f: &mut fmt::Formatter<W>) -> fmt::Result {
        let n = self.0;
        match self.1 {
            Cost::Pbkdf2(costs) => {
                let hash = Escaped(costs.hash.as_bytes());
                let iterations = costs.iterations;
                writeln!(f, "costs {n} pbkdf2 {hash} iterations {iterations}")
            }
            Cost::Argon2i(costs) => write_argon2(n, "argon2i", costs, f),
            Cost::Argon2id(costs) => write_argon2(n, "argon2id", costs, f),
        }
    }
}

fn write_argon2<W: fmt::Write>(
    n: u8,
    kind: &str,
    costs: Argon2,
    f: &mut fmt::Formatter<W>,
) -> fmt::Result
    ensures { WritesOnOk W.write_str_gives f.old result (argon2_line n kind.now costs) f.new }
{
    let time = costs.time;
    let memory = costs.memory;
    let cpus = costs.cpus;
    writeln!(
        f,
        "costs {n} {kind} time {time} memory {memory} cpus {cpus}"
    )
}

/// The salt of the keyslot of this number; it prints as its line.
#[derive(Clone, Copy)]
pub struct SaltLine<'a>(pub usize, pub &'a [u8]);

impl fmt::Display for SaltLine<'_> {
    ghost output = { λ l. Some (salt_line l.0 l.1.now) };

    fn fmt<W: fmt::Write>(&self, f: &mut fmt::Formatter<W>) -> fmt::Result {
        let n = self.0;
        let salt = Hex(self.1);
        writeln!(f, "salt {n} {salt}")
    }
}

/// How the segment of this number is encrypted; it prints as its line.
#[derive(Clone, Copy)]
pub struct EncryptionLine<'a>(pub u8, pub Encryption<'a>);

impl fmt::Display for EncryptionLine<'_> {
    ghost output = { λ l. Some (encryption_line l.0 l.1) };

    fn fmt<W: fmt::Write>(&self, f: &mut fmt::Formatter<W>) -> fmt::Result {
        let n = self.0;
        let cipher = Escaped(self.1.cipher.as_bytes());
        let sector_size = self.1.sector_size;
        let iv_tweak = self.1.iv_tweak;
        writeln!(
            f,
            "encryption {n} {cipher} sector-size {sector_size} iv-tweak {iv_tweak}"
        )
    }
}
