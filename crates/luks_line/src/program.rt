//! The program and its commands, as `clap` reads them.

use crate::choices::{Choice, ChoiceRow};
use crate::commands::{Described, commands};
use crate::operands::{Operand, OperandRow};
use crate::options::{LongOption, OptionRow};
use crate::takes::Takes;
use clap::{Arg, ArgGroup, Command};
use luks_helps::helps;
use std::alloc::{AllocError, Global};

/// The program, with the commands that overwrite or without them.
pub(crate) fn program<'a>(alloc: Global, overwriting: bool) -> Result<Command<'a>, AllocError> {
    let commands = commands_of(alloc, overwriting)?;
    bare_program(alloc).subcommands(commands)
}

fn bare_program<'a>(alloc: Global) -> Command<'a> {
    Command::new(alloc, "luks")
        .version(helps::VERSION)
        .about(helps::PROGRAM)
        .after_help(helps::PROGRAM_MORE)
        .subcommand_required(true)
}

fn commands_of<'a>(alloc: Global, overwriting: bool) -> Result<Vec<Command<'a>>, AllocError> {
    let mut made = Vec::new(alloc);
    for described in commands().iter() {
        if overwriting || !described.overwrites {
            made.push(command(alloc, described)?)?;
        }
    }
    Ok(made)
}

fn command<'a>(alloc: Global, described: &Described) -> Result<Command<'a>, AllocError> {
    let args = args_of(alloc, described)?;
    let groups = groups_of(alloc, described.choices)?;
    bare_command(alloc, described).args(args)?.groups(groups)
}

fn bare_command<'a>(alloc: Global, described: &Described) -> Command<'a> {
    let name = described.command;
    let command = Command::new(alloc, described.name)
        .about(name.about())
        .after_help(name.more());
    match name.usage() {
        Some(usage) => command.override_usage(usage),
        None => command,
    }
}

fn args_of<'a>(alloc: Global, described: &Described) -> Result<Vec<Arg<'a>>, AllocError> {
    let mut args = positionals_of(alloc, described.operands)?;
    for option in described.options.iter() {
        args.push(long_option(alloc, option.row())?)?;
    }
    Ok(args)
}

fn positionals_of<'a>(alloc: Global, operands: &[Operand]) -> Result<Vec<Arg<'a>>, AllocError> {
    let mut args = Vec::new(alloc);
    for operand in operands.iter() {
        args.push(positional(alloc, operand.row()))?;
    }
    Ok(args)
}

fn groups_of<'a>(alloc: Global, choices: &[Choice]) -> Result<Vec<ArgGroup<'a>>, AllocError> {
    let mut groups = Vec::new(alloc);
    for choice in choices.iter() {
        groups.push(group(alloc, choice.row())?)?;
    }
    Ok(groups)
}

/// One of the options is needed, and no two of them are taken.
fn group<'a>(alloc: Global, choice: &ChoiceRow) -> Result<ArgGroup<'a>, AllocError> {
    ArgGroup::new(alloc, choice.name)
        .required(true)
        .args(choice.options)
}

fn positional<'a>(alloc: Global, operand: &OperandRow) -> Arg<'a> {
    Arg::new(alloc, operand.name)
        .required(operand.needed)
        .help(operand.help)
}

/// The options of `rebuild` that mean a LUKS1 header, and go with none that speaks of a LUKS2 header.
const LUKS1_FIELDS: &[&str] = &[
    "cipher",
    "hash",
    "key-bytes",
    "payload",
    "passphrase",
    "passphrase-line",
];

fn long_option<'a>(alloc: Global, option: &OptionRow) -> Result<Arg<'a>, AllocError> {
    let arg = Arg::new(alloc, option.name)
        .long(option.name)
        .required(option.needed)
        .help(option.help);
    let arg = taking(arg, option.takes);
    match option.takes {
        Takes::Form => arg.group("form"),
        Takes::OnePassphrase => arg.group("one passphrase"),
        Takes::OfLuks2 | Takes::CopySize => arg.conflicts_with_all(LUKS1_FIELDS),
        _ => Ok(arg),
    }
}

fn taking<'a>(arg: Arg<'a>, takes: Takes) -> Arg<'a> {
    arg.action(takes.action())
        .value_parser(takes.parser())
        .value_names(takes.names())
        .default_values(takes.preset())
        .hide_possible_values(takes.hides())
}
