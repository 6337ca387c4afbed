//! What the words of a command line ask for, once `clap` has told them apart.

use crate::command_name::CommandName;
use crate::derivation::{argon2_of, kdf_of};
use crate::encryption::{cipher_of, key_bytes_of};
use crate::fields::{fields_of, sector_size_of};
use crate::matching::matching_of;
use crate::search::Search;
use crate::sized::{bytes_of, mib_of};
use crate::tokens::{token_edit_of, token_kept_of, token_shown_of};
use clap::ArgMatches;
use luks_kdf::HashName;
use luks_reading::{Data, Format};
use luks_request::{
    AskedPriority, BackingUp, Command, Comparing, Converting, EditRequest, Editing, KeepingKey,
    Line, Making, NewFields, NewVersion, OpenerFile, Place, Rebuilding, Restoring, ShowAs,
};

/// What the command asks for, of a volume.
pub(crate) fn line_of<'a>(name: CommandName, given: &ArgMatches<'a>) -> Option<Line<'a>> {
    Some(Line {
        volume: volume_of(given)?,
        place: place_of(given)?,
        command: command_of(name, given)?,
    })
}

/// The volume, which two commands call the source.
fn volume_of<'a>(given: &ArgMatches<'a>) -> Option<&'a str> {
    given.get_str("VOLUME").or(given.get_str("SOURCE"))
}

/// Which disk is searched, where, and for what.
pub(crate) fn search_of<'a>(given: &ArgMatches<'a>) -> Option<Search<'a>> {
    Some(Search {
        disk: given.get_str("DEVICE")?,
        place: place_of(given)?,
        fragments: given.get_flag("fragments"),
        json: given.get_flag("json"),
    })
}

/// Which bytes of its file are the volume.
fn place_of(given: &ArgMatches<'_>) -> Option<Place> {
    Some(Place {
        offset: bytes_of(given, "offset")?,
        length: bytes_of(given, "length"),
    })
}

fn command_of<'a>(name: CommandName, given: &ArgMatches<'a>) -> Option<Command<'a>> {
    match name {
        CommandName::Check => Some(checking_of(given)),
        CommandName::Show => Some(showing_of(given)),
        CommandName::Open => opening_of(given),
        CommandName::Format => formatting_of(given),
        CommandName::Convert => converting_of(given),
        CommandName::Rebuild => rebuilding_of(given),
        CommandName::Backup => backing_up_of(given),
        CommandName::Restore => restoring_of(given),
        CommandName::Compare => comparing_of(given),
        CommandName::Key => keeping_key_of(given),
        CommandName::Token => token_of(given),
        _ => editing_of(name, given),
    }
}

/// The file of the passphrase, whether the whole of it is taken or its first line.
fn passphrase_of<'a>(given: &ArgMatches<'a>) -> Option<&'a str> {
    given
        .get_str("passphrase")
        .or(given.get_str("passphrase-line"))
}

/// The file of the new passphrase likewise.
fn new_of<'a>(given: &ArgMatches<'a>) -> Option<&'a str> {
    given.get_str("new").or(given.get_str("new-line"))
}

fn checking_of<'a>(given: &ArgMatches<'a>) -> Command<'a> {
    Command::Check {
        payload: payload_of(given),
    }
}

fn showing_of<'a>(given: &ArgMatches<'a>) -> Command<'a> {
    Command::Show(form_of(given))
}

fn opening_of<'a>(given: &ArgMatches<'a>) -> Option<Command<'a>> {
    if let Some(matching) = matching_of(given) {
        return Some(matching);
    }
    Some(Command::Open {
        passphrase: passphrase_of(given)?,
        slot: given.get_one::<u8>("slot"),
        memory: mib_of(given, "memory")?,
        older: given.get_flag("older"),
    })
}

/// The file of what opens the keyslot of an edit: its passphrase or its key.
fn opener_of<'a>(given: &ArgMatches<'a>) -> Option<OpenerFile<'a>> {
    match given.get_str("key") {
        Some(name) => Some(OpenerFile::Key(name)),
        None => Some(OpenerFile::Passphrase(passphrase_of(given)?)),
    }
}

fn editing_of<'a>(name: CommandName, given: &ArgMatches<'a>) -> Option<Command<'a>> {
    Some(Command::Edit(Editing {
        request: edit_of(name, given)?,
        random: given.get_str("random"),
        payload: payload_of(given),
        over: given.get_flag("over"),
    }))
}

fn edit_of<'a>(name: CommandName, given: &ArgMatches<'a>) -> Option<EditRequest<'a>> {
    match name {
        CommandName::Add => adding_of(given),
        CommandName::Change => changing_of(given),
        CommandName::Remove => removing_of(given),
        CommandName::Erase => erasing_of(given),
        CommandName::Repair => Some(EditRequest::Repair),
        CommandName::Label => labelling_of(given),
        CommandName::Uuid => Some(identifying_of(given)),
        CommandName::Priority => preferring_of(given),
        CommandName::Token => token_edit_of(given),
        _ => None,
    }
}

/// The addition by a keyslot, or by the volume key where that is named and no keyslot.
fn adding_of<'a>(given: &ArgMatches<'a>) -> Option<EditRequest<'a>> {
    match (given.get_one::<u8>("slot"), given.get_str("key")) {
        (None, Some(key)) => adding_by_key(key, given),
        (by_, _) => adding_by(by_, given),
    }
}

fn adding_by_key<'a>(key: &'a str, given: &ArgMatches<'a>) -> Option<EditRequest<'a>> {
    Some(EditRequest::AddByKey {
        key,
        memory: mib_of(given, "memory")?,
        older: given.get_flag("older"),
        new: new_of(given)?,
        to: given.get_one::<u8>("to"),
        iterations: given.get_one::<u32>("iterations")?,
        kdf: kdf_of(given)?,
    })
}

fn adding_by<'a>(by_: Option<u8>, given: &ArgMatches<'a>) -> Option<EditRequest<'a>> {
    Some(EditRequest::Add {
        by_,
        opener: opener_of(given)?,
        memory: mib_of(given, "memory")?,
        older: given.get_flag("older"),
        new: new_of(given)?,
        to: given.get_one::<u8>("to"),
        iterations: given.get_one::<u32>("iterations")?,
        kdf: kdf_of(given)?,
    })
}

fn changing_of<'a>(given: &ArgMatches<'a>) -> Option<EditRequest<'a>> {
    Some(EditRequest::Change {
        slot: given.get_one::<u8>("slot"),
        opener: opener_of(given)?,
        memory: mib_of(given, "memory")?,
        older: given.get_flag("older"),
        new: new_of(given)?,
        iterations: given.get_one::<u32>("iterations")?,
        kdf: kdf_of(given)?,
    })
}

fn removing_of<'a>(given: &ArgMatches<'a>) -> Option<EditRequest<'a>> {
    Some(EditRequest::Remove {
        slot: given.get_one::<u8>("slot"),
        by_: given.get_one::<u8>("by"),
        opener: opener_of(given)?,
        memory: mib_of(given, "memory")?,
        older: given.get_flag("older"),
    })
}

/// The erasure, where the words say that every keyslot is meant.
fn erasing_of<'a>(given: &ArgMatches<'a>) -> Option<EditRequest<'a>> {
    if given.get_flag("all") {
        Some(EditRequest::Erase)
    } else {
        None
    }
}

fn labelling_of<'a>(given: &ArgMatches<'a>) -> Option<EditRequest<'a>> {
    Some(EditRequest::Label {
        text: given.get_str("TEXT")?,
        subsystem: given.get_str("subsystem"),
    })
}

/// The uuid that is given, or a new one.
fn identifying_of<'a>(given: &ArgMatches<'a>) -> EditRequest<'a> {
    EditRequest::Uuid {
        text: given.get_str("TEXT"),
    }
}

fn preferring_of<'a>(given: &ArgMatches<'a>) -> Option<EditRequest<'a>> {
    Some(EditRequest::Priority {
        slot: given.get_one::<u8>("slot")?,
        priority: priority_named(given.get_str("PRIORITY")?)?,
    })
}

/// The priority of this name.
pub(crate) fn priority_named(name: &str) -> Option<AskedPriority> {
    match name {
        "ignore" => Some(AskedPriority::Ignore),
        "normal" => Some(AskedPriority::Normal),
        "prefer" => Some(AskedPriority::Prefer),
        _ => None,
    }
}

/// What is asked of a volume's tokens: they are shown, or one is kept in a file, or they are edited.
fn token_of<'a>(given: &ArgMatches<'a>) -> Option<Command<'a>> {
    if let Some(form) = token_shown_of(given) {
        return Some(Command::Show(form));
    }
    match token_kept_of(given) {
        Some(keeping) => Some(Command::KeepToken(keeping)),
        None => editing_of(CommandName::Token, given),
    }
}

fn formatting_of<'a>(given: &ArgMatches<'a>) -> Option<Command<'a>> {
    Some(Command::Format(Making {
        passphrase: passphrase_of(given)?,
        random: given.get_str("random")?,
        version: version_of(given)?,
        format: Format {
            hash: HashName::parse(given.get_str("hash")?)?,
            iterations: given.get_one::<u32>("iterations")?,
        },
        kdf: argon2_of(given)?,
        memory: mib_of(given, "memory")?,
        older: given.get_flag("older"),
        payload: payload_of(given),
        given: new_fields_of(given)?,
        over: given.get_flag("over"),
    }))
}

/// What is given of a new volume.
fn new_fields_of<'a>(given: &ArgMatches<'a>) -> Option<NewFields<'a>> {
    let cipher = cipher_of(given)?;
    Some(NewFields {
        key: given.get_str("key"),
        sector: given.get_one::<u32>("payload").map(u64::from),
        uuid: given.get_str("uuid"),
        label: given.get_str("label"),
        subsystem: given.get_str("subsystem"),
        cipher,
        key_bytes: key_bytes_of(given, cipher),
        sector_size: given.get_one::<u32>("sector-size")?,
    })
}

fn version_of(given: &ArgMatches<'_>) -> Option<NewVersion> {
    match given.get_str("version")? {
        "1" => Some(NewVersion::Luks1),
        _ => Some(NewVersion::Luks2),
    }
}

fn converting_of<'a>(given: &ArgMatches<'a>) -> Option<Command<'a>> {
    Some(Command::Convert(Converting {
        target: given.get_str("TARGET")?,
        random: given.get_str("random")?,
        payload: payload_of(given),
        over: given.get_flag("over"),
    }))
}

fn rebuilding_of<'a>(given: &ArgMatches<'a>) -> Option<Command<'a>> {
    Some(Command::Rebuild(Rebuilding {
        target: given.get_str("TARGET")?,
        random: given.get_str("random")?,
        passphrase: passphrase_of(given),
        memory: mib_of(given, "memory")?,
        second: given.get_flag("second"),
        size: bytes_of(given, "size"),
        thorough: given.get_flag("thorough"),
        uuid: given.get_str("uuid"),
        luks1: fields_of(given),
        sector_size: sector_size_of(given),
        over: given.get_flag("over"),
    }))
}

fn backing_up_of<'a>(given: &ArgMatches<'a>) -> Option<Command<'a>> {
    Some(Command::Backup(BackingUp {
        target: given.get_str("FILE")?,
        payload: payload_of(given),
        over: given.get_flag("over"),
        rescue: given.get_flag("rescue"),
    }))
}

fn restoring_of<'a>(given: &ArgMatches<'a>) -> Option<Command<'a>> {
    Some(Command::Restore(Restoring {
        backup: given.get_str("FILE")?,
        payload: payload_of(given),
        other: given.get_flag("other"),
        over: given.get_flag("over"),
        over_reencryption: given.get_flag("over-reencryption"),
    }))
}

fn comparing_of<'a>(given: &ArgMatches<'a>) -> Option<Command<'a>> {
    Some(Command::Compare(Comparing {
        backup: given.get_str("FILE")?,
        payload: payload_of(given),
    }))
}

fn keeping_key_of<'a>(given: &ArgMatches<'a>) -> Option<Command<'a>> {
    Some(Command::KeepKey(KeepingKey {
        target: given.get_str("to")?,
        passphrase: passphrase_of(given)?,
        slot: given.get_one::<u8>("slot"),
        memory: mib_of(given, "memory")?,
        older: given.get_flag("older"),
        over: given.get_flag("over"),
    }))
}

fn payload_of(given: &ArgMatches<'_>) -> Data {
    if given.get_flag("detached") {
        Data::Elsewhere
    } else {
        Data::Here
    }
}

fn form_of(given: &ArgMatches<'_>) -> ShowAs {
    if given.get_flag("json") {
        ShowAs::Json
    } else if given.get_flag("map") {
        ShowAs::Map
    } else if given.get_flag("tables") {
        ShowAs::Tables
    } else if given.get_flag("all") {
        ShowAs::All
    } else {
        ShowAs::Lines
    }
}
