//! The words of a command as `clap` reads them: the command of `clap` that stands for one of ours, and what it
//! finds in the words.
ghost use Rattle.std.specs.Prelude.{◌≡◌, ◌⊎◌, ◌++◌, ◌∷◌, [], map, option_map, IfOk, IfErr, false, if◌then◌else◌};
ghost use Rattle.clap.specs.Walk.{rule_of};
ghost use Rattle.clap.specs.Values.{kind_of};
ghost use Rattle.clap.specs.declared.error.kind.ErrorKind.TheVariants.{OutOfMemory};
ghost use Rattle.bx_words.specs.Verbs.{texts, files_of, line_of};
ghost use Rattle.bx_words.specs.Clap.{file_rule, number_rule, option_rule, rules_of, has_matches, given_in, named_in, rows_in, HasFound};
ghost use Rattle.bx_words.specs.Built.{IsBuilt};
ghost use Rattle.bx_words.specs.Refusals.{IsRefusal};

use crate::faults::{NoCommand, WordFault};
use crate::opts::Opt;
use crate::verbs::{File, Verb};
use clap::error::ErrorKind;
use clap::{Arg, ArgAction, ArgMatches, Error};
use std::alloc::{AllocError, Global};

// What `clap` finds in the words of a command.
pub(crate) fn find_matches<'w>(
    alloc: Global,
    verb: Verb,
    words: &'w [String],
) -> Result<ArgMatches<'w>, NoCommand>
    ensures found { IfOk result (HasFound verb (texts words.entry.now)) }
    ensures none { IfErr result (IsRefusal (has_matches verb (texts words.entry.now))) }
{
    let command = command_of(alloc, verb)?;
    match command.try_get_matches_from(words) {
        Ok(matches) => Ok(matches),
        Err(error) => Err(refusal(&error)),
    }
}

// What an error of `clap` says of the words.
fn refusal(error: &Error) -> NoCommand
    ensures memory { kind_of error.now ≡ OutOfMemory → result ≡ NoCommand.NoMemory }
    ensures other { (kind_of error.now ≡ OutOfMemory → ⊥) →
        result ≡ NoCommand.Fault WordFault.Usage }
    ensures either { (result ≡ NoCommand.NoMemory) ⊎ (result ≡ NoCommand.Fault WordFault.Usage) }
{
    match error.kind() {
        ErrorKind::OutOfMemory => NoCommand::NoMemory,
        _ => NoCommand::Fault(WordFault::Usage),
    }
}

// The command of `clap` that reads the words.
fn command_of<'w>(alloc: Global, verb: Verb) -> Result<clap::Command<'w>, AllocError>
    ensures { IfOk result (IsBuilt (line_of verb)) }
{
    let args = arguments(alloc, verb)?;
    let name: &'w str = verb.name();
    clap::Command::new(alloc, name)
        .disable_help_flag(true)
        .args(args)
}

// Its arguments: the files, the numbers, and then the options.
fn arguments<'w>(alloc: Global, verb: Verb) -> Result<Vec<Arg<'w>>, AllocError>
    ensures { IfOk result (λ args. map rule_of args.items ≡ rules_of (line_of verb)) }
{
    let mut args = positional_arguments(alloc, verb)?;
    for option in verb.options() {
        args.push(option_argument(alloc, *option))?;
    }
    Ok(args)
}

fn positional_arguments<'w>(alloc: Global, verb: Verb) -> Result<Vec<Arg<'w>>, AllocError>
    ensures { IfOk result (λ args. map rule_of args.items
        ≡ map file_rule (files_of (line_of verb)) ++ map number_rule (line_of verb).numbers) }
{
    let mut args = file_arguments(alloc, verb)?;
    for number in verb.numbers() {
        args.push(number_argument(alloc, *number))?;
    }
    Ok(args)
}

fn file_arguments<'w>(alloc: Global, verb: Verb) -> Result<Vec<Arg<'w>>, AllocError>
    ensures { IfOk result
        (λ args. map rule_of args.items ≡ map file_rule (files_of (line_of verb))) }
{
    let mut args = arguments_of(alloc, verb.read())?;
    for file in verb.written() {
        args.push(file_argument(alloc, *file))?;
    }
    Ok(args)
}

fn arguments_of<'w>(alloc: Global, files: &[File]) -> Result<Vec<Arg<'w>>, AllocError>
    ensures { IfOk result (λ args. map rule_of args.items ≡ map file_rule files.now) }
{
    let mut args = Vec::new(alloc);
    for file in files {
        args.push(file_argument(alloc, *file))?;
    }
    Ok(args)
}

fn file_argument<'w>(alloc: Global, file: File) -> Arg<'w>
    ensures { rule_of result ≡ file_rule file }
{
    let name: &'w str = file.name();
    Arg::new(alloc, name).required(true).action(ArgAction::Set)
}

fn number_argument<'w>(alloc: Global, number: Opt) -> Arg<'w>
    ensures { rule_of result ≡ number_rule number }
{
    let name: &'w str = number.name();
    Arg::new(alloc, name).required(true).action(ArgAction::Set)
}

fn option_argument<'w>(alloc: Global, option: Opt) -> Arg<'w>
    ensures { rule_of result ≡ option_rule option }
{
    let name: &'w str = option.name();
    Arg::new(alloc, name).long(name).action(ArgAction::Set)
}

// The text that is given for a number.
pub(crate) fn given<'w>(matches: &ArgMatches<'w>, option: Opt) -> Option<&'w str>
    ensures { option_map (λ text. text.now) result ≡ given_in (rows_in matches.now) option }
{
    matches.get_str(option.name())
}

// The name that is given for a file.
pub(crate) fn named<'w>(matches: &ArgMatches<'w>, file: File) -> Option<&'w str>
    ensures { option_map (λ name. name.now) result ≡ named_in (rows_in matches.now) file }
{
    matches.get_str(file.name())
}
