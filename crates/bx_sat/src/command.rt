//! The words of a command line: a command with its files, its budget, its conflicts or its workers, or none.
ghost use Rattle.std.specs.Prelude.{◌≡◌, option_map};
ghost use Rattle.std.specs.List.{list_all};
ghost use Rattle.std.specs.Char.{is_ascii_digit};
ghost use Rattle.bx_sat.specs.Words.{texts, request_of, plain_of, fast_of, asks_fast as is_fast, number_of as number_in, workers_of as workers_in};
ghost use Rattle.bx_sat.specs.Commands.{request_by, number_by};

use crate::workers::Workers;

// How many workers check a proof where the words don't say.
const DEFAULT_WORKERS: u32 = 4;

// The most workers that check a proof.
const MOST_WORKERS: u64 = 16;

/// What is to be run.
#[derive(Clone, Copy)]
pub(crate) enum Command<'a> {
    /// Check the proof of a formula with so many workers.
    Check {
        formula: &'a str,
        proof: &'a str,
        workers: Workers,
    },
    /// Solve a formula, and write the proof where there is a file for it.
    Solve {
        formula: &'a str,
        budget: u64,
        proof: Option<&'a str>,
    },
    /// Solve a formula by the fast search, and write the proof where there is a file for it.
    SolveFast {
        formula: &'a str,
        conflicts: u64,
        proof: Option<&'a str>,
    },
}

impl<'a> Command<'a> {
    /// The command that these words ask for, if they ask for one. A proof isn't written over its formula.
    pub(crate) fn of_words(words: &'a [String]) -> Option<Self>
        ensures { option_map request_by result ≡ request_of (texts words.now) }
    {
        match Self::fast_of_words(words) {
            Some(command) => Some(command),
            None => Self::plain_of_words(words),
        }
    }

    // The fast search that they ask for.
    fn fast_of_words(words: &'a [String]) -> Option<Self>
        ensures { option_map request_by result ≡ fast_of (texts words.now) }
    {
        match words {
            [verb, formula, option, conflicts] if asks_fast(verb.as_str(), option.as_str()) => {
                Some(Command::SolveFast {
                    formula: formula.as_str(),
                    conflicts: number_of(conflicts.as_str())?,
                    proof: None,
                })
            }
            [verb, formula, option, conflicts, proof]
                if asks_fast(verb.as_str(), option.as_str()) && formula != proof => {
                Some(Command::SolveFast {
                    formula: formula.as_str(),
                    conflicts: number_of(conflicts.as_str())?,
                    proof: Some(proof.as_str()),
                })
            }
            _ => None,
        }
    }

    // The check, or the search within a budget, that they ask for.
    fn plain_of_words(words: &'a [String]) -> Option<Self>
        ensures { option_map request_by result ≡ plain_of (texts words.now) }
    {
        match words {
            [verb, formula, proof] if verb.as_str() == "check" => Some(Command::Check {
                formula: formula.as_str(),
                proof: proof.as_str(),
                workers: Workers {
                    number: DEFAULT_WORKERS,
                },
            }),
            [verb, formula, proof, option, workers]
                if verb.as_str() == "check" && option.as_str() == "--workers" => {
                Some(Command::Check {
                    formula: formula.as_str(),
                    proof: proof.as_str(),
                    workers: workers_of(workers.as_str())?,
                })
            }
            [verb, formula, budget] if verb.as_str() == "solve" => Some(Command::Solve {
                formula: formula.as_str(),
                budget: number_of(budget.as_str())?,
                proof: None,
            }),
            [verb, formula, budget, proof] if verb.as_str() == "solve" && formula != proof => {
                Some(Command::Solve {
                    formula: formula.as_str(),
                    budget: number_of(budget.as_str())?,
                    proof: Some(proof.as_str()),
                })
            }
            _ => None,
        }
    }
}

// Whether a verb and an option ask for the fast search.
fn asks_fast(verb: &str, option: &str) -> bool
    ensures { result ≡ is_fast verb.now option.now }
{
    verb == "solve" && option == "--fast"
}

// The number of workers of a word: a number from 1 to 16.
fn workers_of(word: &str) -> Option<Workers>
    ensures { option_map number_by result ≡ workers_in word.now }
{
    let number = number_of(word)?;
    if number == 0 || number > MOST_WORKERS {
        return None;
    }
    Some(Workers {
        number: number as u32,
    })
}

// The number of a word: one digit or more, up to 18,446,744,073,709,551,615.
fn number_of(word: &str) -> Option<u64>
    ensures { result ≡ number_in word.now }
{
    if all_digits(word.as_bytes()) {
        word.parse::<u64>().ok()
    } else {
        None
    }
}

// Whether bytes are decimal digits.
fn all_digits(bytes: &[u8]) -> bool
    ensures { result ≡ list_all is_ascii_digit bytes.now }
{
    bytes.iter().all(|byte| byte.is_ascii_digit())
}
