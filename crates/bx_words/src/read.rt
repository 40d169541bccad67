//! The one call: from the words to the command that they say, or to the first thing that is wrong with them.
ghost use Rattle.std.specs.Prelude.{◌≡◌, ◌≢◌, None, Some, Err, IfOk, IfErr, OnOk, IsOk, IsSome, All};
ghost use Rattle.bx_words.specs.declared.faults.WordFault.{WordFault as Wrong};
ghost use Rattle.bx_words.specs.Verbs.{texts, files_of, line_of, opts_of};
ghost use Rattle.bx_words.specs.Clap.{given_in, named_in, rows_in};
ghost use Rattle.bx_words.specs.Words.{first_fault, found_fault, option_fault as option_fault_of, IsCommand, IsCommandOf, IsAnswer};

use crate::commands::Command;
use crate::design::read_design;
use crate::faults::{NoCommand, WordFault};
use crate::names::writes_over;
use crate::numbers::option_fault;
use crate::others::{read_extract, read_sample, read_verify};
use crate::parse::find_matches;
use crate::verbs::{Verb, find_verb};
use clap::ArgMatches;
use std::alloc::Global;

/// The command that the words behind the program's name say, or the first thing that is wrong with them. Its
/// names are those of the words, which stay where they are.
pub fn read_words<'w>(alloc: Global, words: &'w [String]) -> Result<Command<'w>, NoCommand>
    // A command comes only where nothing is wrong with the words, and it is the one that they say.
    ensures sound { OnOk result (first_fault (texts words.now) ≡ None) }
    ensures command { IfOk result (IsCommand (texts words.now)) }

    // A fault is the first one of the words.
    ensures fault { (fault : Wrong) → result ≡ Err (NoCommand.Fault fault) →
        first_fault (texts words.now) ≡ Some fault }

    // Where memory isn't refused, words with no fault give a command, and others give their first fault.
    ensures taken { first_fault (texts words.now) ≡ None →
        result ≢ Err NoCommand.NoMemory → IsOk result }
    ensures refused { (fault : Wrong) → first_fault (texts words.now) ≡ Some fault →
        result ≢ Err NoCommand.NoMemory → result ≡ Err (NoCommand.Fault fault) }
{
    answer(alloc, words)
}

// The same, in one clause.
fn answer<'w>(alloc: Global, words: &'w [String]) -> Result<Command<'w>, NoCommand>
    ensures { IsAnswer (texts words.now) result }
{
    let Some(verb) = find_verb(words) else {
        return Err(NoCommand::Fault(WordFault::Command));
    };
    match find_matches(alloc, verb, words) {
        Ok(matches) => match command(verb, &matches) {
            Ok(command) => Ok(command),
            Err(fault) => Err(NoCommand::Fault(fault)),
        },
        Err(none) => Err(none),
    }
}

// The command of what was found in its words, or what is first wrong with it.
fn command<'w>(verb: Verb, matches: &ArgMatches<'w>) -> Result<Command<'w>, WordFault>
    requires named { All (λ file. IsSome (named_in (rows_in matches.now) file))
        (files_of (line_of verb)) }
    requires numbered { All (λ number. IsSome (given_in (rows_in matches.now) number))
        (line_of verb).numbers }
    ensures sound { OnOk result (found_fault verb (rows_in matches.now) ≡ None) }
    ensures command { IfOk result (IsCommandOf verb (rows_in matches.now)) }
    ensures fault { IfErr result (λ fault. found_fault verb (rows_in matches.now) ≡ Some fault) }
{
    if let Some(fault) = number_fault(verb, matches) {
        return Err(fault);
    }
    if writes_over(matches, verb.read(), verb.written()) {
        return Err(WordFault::Same);
    }
    match verb {
        Verb::Design => match read_design(matches) {
            Ok(design) => Ok(Command::Design(design)),
            Err(fault) => Err(fault),
        },
        Verb::Verify => Ok(Command::Verify(read_verify(matches))),
        Verb::Extract => Ok(Command::Extract(read_extract(matches))),
        Verb::Sample => Ok(Command::Sample(read_sample(matches))),
    }
}

// The first fault of a command's numbers. No command has both some that are always given and options.
fn number_fault(verb: Verb, matches: &ArgMatches<'_>) -> Option<WordFault>
    ensures { result ≡ option_fault_of (opts_of (line_of verb)) (given_in (rows_in matches.now)) }
{
    match verb {
        Verb::Sample => option_fault(verb.numbers(), matches),
        Verb::Design | Verb::Verify | Verb::Extract => option_fault(verb.options(), matches),
    }
}
