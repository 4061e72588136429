//! The command of `clap` that a table describes.

ghost use Rattle.std.specs.Prelude.{◌≡◌, IfOk, false, map};
ghost use Rattle.clap.specs.declared.builder.command.Command.TheViews.{out-Command as fields_of};
ghost use Rattle.clap.specs.Words.{app_of, new_app, rule_of, with_subcommand};
ghost use Rattle.command_words.specs.Table.{argument_rule, program_app, program_top, rule_for, value_rule, with_rules, with_words, word_app};

use crate::table::{Argument, Kind, Program, Word};
use clap::{Arg, ArgAction, Command, value_parser};
use std::alloc::{AllocError, Global};

/// An option with a value of this name.
fn value_argument<'a>(alloc: Global, name: &'a str, value: &'a str) -> Arg<'a>
    ensures rule { rule_of result ≡ value_rule name.entry.now }
    ensures own { result.global ≡ false }
{
    Arg::new(alloc, name).long(name).value_name(value)
}

/// An argument of this kind, without its help text.
fn plain_argument<'a>(alloc: Global, name: &'a str, kind: Kind<'a>) -> Arg<'a>
    ensures rule { rule_of result ≡ rule_for name.entry.now kind.entry }
    ensures own { result.global ≡ false }
{
    match kind {
        Kind::File => Arg::new(alloc, name).required(true),
        Kind::Files => Arg::new(alloc, name)
            .required(true)
            .action(ArgAction::Append),
        Kind::OptionalFile => Arg::new(alloc, name),
        Kind::Flag => Arg::new(alloc, name).long(name).action(ArgAction::SetTrue),
        Kind::Value(value) => value_argument(alloc, name, value),
        Kind::Values(value) => value_argument(alloc, name, value).action(ArgAction::Append),
        Kind::RequiredValue(value) => value_argument(alloc, name, value).required(true),
        Kind::Number(value) => value_argument(alloc, name, value).value_parser(value_parser!(u32)),
    }
}

/// An argument of a table.
fn argument_of<'a>(alloc: Global, argument: &Argument<'a>) -> Arg<'a>
    ensures rule { rule_of result ≡ argument_rule argument.now }
    ensures own { result.global ≡ false }
{
    plain_argument(alloc, argument.name, argument.kind).help(argument.help)
}

/// A command with these arguments after its own.
fn with_arguments<'a>(
    alloc: Global,
    command: Command<'a>,
    arguments: &[Argument<'a>],
) -> Result<Command<'a>, AllocError>
    ensures app { IfOk result (λ c. app_of c ≡ with_rules (app_of command.entry) (map argument_rule arguments.now)) }
    ensures own { IfOk result (λ c. (fields_of c).has_globals ≡ (fields_of command.entry).has_globals) }
{
    let mut command = command;
    for argument in arguments {
        command = command.arg(argument_of(alloc, argument))?;
    }
    Ok(command)
}

/// A word without its arguments.
fn bare_word<'a>(alloc: Global, word: &Word<'a>) -> Command<'a>
    ensures app { app_of result ≡ new_app word.now.name.now }
    ensures own { (fields_of result).has_globals ≡ false }
{
    Command::new(alloc, word.name)
        .about(word.about)
        .after_help(word.example)
}

/// A word with its arguments.
fn word_command<'a>(alloc: Global, word: &Word<'a>) -> Result<Command<'a>, AllocError>
    ensures app { IfOk result (λ c. app_of c ≡ word_app word.now) }
    ensures own { IfOk result (λ c. (fields_of c).has_globals ≡ false) }
{
    with_arguments(alloc, bare_word(alloc, word), word.arguments)
}

/// A command with one more word.
fn with_word<'a>(
    alloc: Global,
    command: Command<'a>,
    word: &Word<'a>,
) -> Result<Command<'a>, AllocError>
    ensures { IfOk result (λ c. app_of c ≡ with_subcommand (app_of command.entry) (word_app word.now).top) }
{
    match word_command(alloc, word) {
        Ok(subcommand) => command.subcommand(subcommand),
        Err(error) => Err(error),
    }
}

/// A command with these words after its own.
fn with_words<'a>(
    alloc: Global,
    command: Command<'a>,
    words: &[Word<'a>],
) -> Result<Command<'a>, AllocError>
    ensures { IfOk result (λ c. app_of c ≡ with_words (app_of command.entry) (map word_app words.now)) }
{
    let mut command = command;
    for word in words {
        command = with_word(alloc, command, word)?;
    }
    Ok(command)
}

/// A program without its words.
fn bare_program<'a>(alloc: Global, program: &Program<'a>) -> Command<'a>
    ensures { app_of result ≡ program_top program.now.name.now program.now.needs_word }
{
    let command = Command::new(alloc, program.name)
        .about(program.about)
        .version(program.version)
        .subcommand_required(program.needs_word);
    match program.note {
        Some(note) => command.after_help(note),
        None => command,
    }
}

/// A command whose usage has this name, whatever the program's file is called.
fn called<'a>(command: Command<'a>, name: &str) -> Result<Command<'a>, AllocError>
    ensures { IfOk result (λ c. app_of c ≡ app_of command.entry) }
{
    command.bin_name(name)
}

/// The command of a program with its words. Its usage has the program's name, whatever the program's file is called.
pub(crate) fn command_of<'a>(
    alloc: Global,
    program: &Program<'a>,
) -> Result<Command<'a>, AllocError>
    ensures { IfOk result (λ c. app_of c ≡ program_app program.now) }
{
    let command = with_words(alloc, bare_program(alloc, program), program.words)?;
    called(command, program.name)
}
