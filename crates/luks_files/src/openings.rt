ghost use Rattle.std.specs.Prelude.{◌≡◌, false, true, IfSome, option_map};
ghost use Rattle.luks_request.specs.Named.{backup_of, is_writer, new_of, passphrase_of, random_of, target_of};
ghost use Rattle.luks_files.specs.Opened.{beside_of};

use luks_request::{Line, Place};

/// A file that a command line names, and whether it is opened to be written too; else only to be read.
#[derive(Clone, Copy)]
pub struct Opening<'a> {
    /// Its name, as the command line has it.
    pub name: &'a str,
    /// Whether it is opened to be written too.
    pub writes: bool,
}

/// Which files a command line opens, each as what.
#[derive(Clone, Copy)]
pub struct Openings<'a> {
    /// The volume, or its detached header. It is only read if there is a target.
    pub volume: Opening<'a>,
    /// Which bytes of its file the volume is.
    pub place: Place,
    /// The file that a separate header, or a backup, is written to.
    pub target: Option<Opening<'a>>,
    /// The backup that is put back or compared.
    pub backup: Option<Opening<'a>>,
    /// The passphrase; `-` is standard input.
    pub passphrase: Option<Opening<'a>>,
    /// The new passphrase; `-` likewise.
    pub new_passphrase: Option<Opening<'a>>,
    /// The random bytes.
    pub random: Option<Opening<'a>>,
}

impl<'a> Openings<'a> {
    /// Those of this command line.
    pub fn of(line: &Line<'a>) -> Self
        ensures volume { result.volume.name.now ≡ line.now.volume.now }
        ensures place { result.place ≡ line.now.place }
        ensures target { option_map (λ o. o.name.now) result.target ≡ target_of line.now.command }
        ensures backup { option_map (λ o. o.name.now) result.backup ≡ backup_of line.now.command }
        ensures passphrase { option_map (λ o. o.name.now) result.passphrase
            ≡ passphrase_of line.now.command }
        ensures new { option_map (λ o. o.name.now) result.new_passphrase ≡ new_of line.now.command }
        ensures random { option_map (λ o. o.name.now) result.random ≡ random_of line.now.command }
        ensures writer { result.volume.writes ≡ is_writer line.now.command }
        ensures source { IfSome (target_of line.now.command) (λ _. result.volume.writes ≡ false) }
        ensures written { IfSome result.target (λ o. o.writes ≡ true) }
        ensures backup_read { IfSome result.backup (λ o. o.writes ≡ false) }
        ensures read { IfSome result.passphrase (λ o. o.writes ≡ false) }
        ensures new_read { IfSome result.new_passphrase (λ o. o.writes ≡ false) }
        ensures random_read { IfSome result.random (λ o. o.writes ≡ false) }
    {
        Openings {
            volume: Opening {
                name: line.volume,
                writes: line.writes(),
            },
            place: line.place,
            target: named_file(line.target(), true),
            backup: named_file(line.backup(), false),
            passphrase: named_file(line.passphrase(), false),
            new_passphrase: named_file(line.new_passphrase(), false),
            random: named_file(line.random(), false),
        }
    }
}

impl<'a> Openings<'a> {
    /// The file that is opened beside the volume: what is written, or else the backup.
    pub fn beside(&self) -> Option<Opening<'a>>
        ensures { result ≡ beside_of self.now }
    {
        match self.target {
            Some(target) => Some(target),
            None => self.backup,
        }
    }
}

/// The file of this name, where there is one.
fn named_file(name: Option<&str>, writes: bool) -> Option<Opening<'_>>
    ensures name { option_map (λ o. o.name.now) result ≡ option_map (λ n. n.now) name.entry }
    ensures writes { IfSome result (λ o. o.writes ≡ writes) }
{
    match name {
        Some(name) => Some(Opening { name, writes }),
        None => None,
    }
}
