use crate::command_name::CommandName;
use crate::commands::command_row;
use crate::derivation::wrong_derivation;
use crate::fields::wrong_field;
use crate::manner::{Manner, manner_of};
use crate::matching::{wrong_change, wrong_key, wrong_removal};
use crate::other_words::other_word;
use crate::program::program;
use crate::requests::{line_of, search_of};
use crate::search::{Search, wrong_search};
use crate::sized::wrong_size;
use crate::tokens::{wrong_priority, wrong_token};
use clap::error::ErrorKind;
use clap::{ArgMatches, Error};
use luks_request::Line;
use std::alloc::{AllocError, Global};

/// What a command line asks for.
#[derive(Clone, Copy)]
pub enum Asked<'a> {
    /// Explains a fault, which is named as it is printed or only by its name; without one, lists
    /// them all. It reads no file.
    Explain(Option<&'a str>),
    /// Finds the volumes of a disk, and how what is found is told.
    Find(Search<'a>, Manner),
    /// A command on a volume, and how its answer is told.
    Volume(Line<'a>, Manner),
}

/// Reads a command line, of which the first word is the program's name.
///
/// The fault is that of `clap`: a mistake in the words, a request for help, or memory that was
/// refused. No clause says what words mean: the transcripts test it.
pub fn parse<'a>(alloc: Global, words: &'a [&'a str]) -> Result<Asked<'a>, Error> {
    let matches = matches_of(alloc, words)?;
    if let Some(text) = mistake_in(alloc, &matches)? {
        return Err(mistake(alloc, ErrorKind::ValueValidation, text.as_str())?);
    }
    match asked_by(&matches) {
        Some(asked) => Ok(asked),
        None => Err(mistake(alloc, ErrorKind::MissingSubcommand, "no command was given")?),
    }
}

/// A mistake in the words, told as `clap` tells those that it finds.
fn mistake(alloc: Global, kind: ErrorKind, text: &str) -> Result<Error, AllocError> {
    let mut program = program(alloc, true)?;
    program.error(kind, text)
}

/// The words as `clap` tells them apart.
fn matches_of<'a>(alloc: Global, words: &'a [&'a str]) -> Result<ArgMatches<'a>, Error> {
    let program = program(alloc, true)?;
    match program.try_get_matches_from(words) {
        Ok(matches) => Ok(matches),
        Err(fault) => Err(told(alloc, words, fault)?),
    }
}

/// The fault as it is told: where another program has the word, by what stands for it here.
fn told(alloc: Global, words: &[&str], fault: Error) -> Result<Error, AllocError> {
    match other_word(alloc, fault.kind(), words)? {
        Some(text) => mistake(alloc, fault.kind(), text.as_str()),
        None => Ok(without_overwriting(alloc, words, fault)),
    }
}

/// The fault as `clap` tells it. If no command has the name that the words begin with, it is told as if
/// there were neither `format` nor `restore`: what overwrites a volume without a question is suggested for
/// no word that is only like its own.
fn without_overwriting(alloc: Global, words: &[&str], fault: Error) -> Error {
    if fault.kind() == ErrorKind::InvalidSubcommand {
        if let Err(told) = try_without_overwriting(alloc, words) {
            return told;
        }
    }
    fault
}

fn try_without_overwriting(alloc: Global, words: &[&str]) -> Result<(), Error> {
    let program = program(alloc, false)?;
    let _ = program.try_get_matches_from(words)?;
    Ok(())
}

/// What is wrong in the words of a command, beside what `clap` judges.
fn mistake_in(alloc: Global, matches: &ArgMatches<'_>) -> Result<Option<String>, AllocError> {
    let Some((name, given)) = matches.subcommand() else {
        return Ok(None);
    };
    let Some(described) = command_row(name) else {
        return Ok(None);
    };
    if let Some(text) = wrong_size(alloc, described, given)? {
        return Ok(Some(text));
    }
    match wrong_words(described.command, given) {
        Some(text) => Ok(Some(String::from_str(alloc, text)?)),
        None => Ok(None),
    }
}

/// What doesn't go together in the words of the command, or is no field of a header.
fn wrong_words(name: CommandName, given: &ArgMatches<'_>) -> Option<&'static str> {
    match name {
        CommandName::Open => wrong_key(given),
        CommandName::Rebuild => wrong_field(given),
        CommandName::Find => wrong_search(given),
        CommandName::Change => wrong_change(given).or(wrong_derivation(given)),
        CommandName::Remove => wrong_removal(given),
        CommandName::Priority => wrong_priority(given),
        CommandName::Token => wrong_token(given),
        CommandName::Format | CommandName::Add => wrong_derivation(given),
        _ => None,
    }
}

fn asked_by<'a>(matches: &ArgMatches<'a>) -> Option<Asked<'a>> {
    let (name, given) = matches.subcommand()?;
    let name = command_row(name)?.command;
    match name {
        CommandName::Explain => Some(Asked::Explain(given.get_str("FAULT"))),
        CommandName::Find => Some(Asked::Find(search_of(given)?, manner_of(name, given))),
        _ => Some(Asked::Volume(line_of(name, given)?, manner_of(name, given))),
    }
}
