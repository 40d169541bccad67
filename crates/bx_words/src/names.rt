//! Names of files as the words give them: whether one file is written over another. Names are compared as they
//! are written, so two spellings of one file are two names.
ghost use Rattle.std.specs.Prelude.{◌≡◌};
ghost use Rattle.std.specs.List.{list_any};
ghost use Rattle.bx_words.specs.Clap.{rows_in};
ghost use Rattle.bx_words.specs.Names.{have_one_name as one_name, is_written_over};

use crate::parse::named;
use crate::verbs::File;
use clap::ArgMatches;

// Whether a file that is written has the name of one that is read, or of another one that is written.
pub(crate) fn writes_over(matches: &ArgMatches<'_>, read: &[File], written: &[File]) -> bool
    ensures { result ≡ is_written_over (rows_in matches.now) read.now written.now }
{
    match written.split_first() {
        Some((file, rest)) => {
            is_one_of(matches, *file, read)
                || is_one_of(matches, *file, rest)
                || writes_over(matches, read, rest)
        }
        None => false,
    }
}

// Whether a file has the name of one of these.
fn is_one_of(matches: &ArgMatches<'_>, file: File, others: &[File]) -> bool
    ensures { result ≡ list_any (one_name (rows_in matches.now) file) others.now }
{
    others
        .iter()
        .any(|other| have_one_name(matches, file, *other))
}

fn have_one_name(matches: &ArgMatches<'_>, one: File, two: File) -> bool
    ensures { result ≡ one_name (rows_in matches.now) one two }
{
    match (named(matches, one), named(matches, two)) {
        (Some(name), Some(other)) => name == other,
        _ => false,
    }
}
