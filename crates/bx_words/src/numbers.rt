//! Numbers as the words give them: the first option whose number is wrong, and what an option is, given or by
//! default.
ghost use Rattle.std.specs.Prelude.{◌≡◌, ◌≤◌, not, false, None, Some, if◌then◌else◌};
ghost use Rattle.std.specs.Option.{option_map_or};
ghost use Rattle.std.specs.List.{list_all};
ghost use Rattle.std.specs.Char.{is_ascii_digit};
ghost use Rattle.bx_words.specs.Options.{least_of, most_of};
ghost use Rattle.bx_words.specs.Clap.{given_in, rows_in};
ghost use Rattle.bx_words.specs.Numbers.{is_number, number_of, is_in_range, is_no_number, is_out_of_range, IsTaken, first_no_number as no_number_of, first_out_of_range as out_of_range_of};
ghost use Rattle.bx_words.specs.Words.{option_fault as fault_of_options, value_at as value_of};

use crate::faults::WordFault;
use crate::limits::MOST_DIGITS;
use crate::opts::Opt;
use crate::parse::given;
use clap::ArgMatches;

// The first fault of options. That a text is no number comes before any number's range.
pub(crate) fn option_fault(options: &[Opt], matches: &ArgMatches<'_>) -> Option<WordFault>
    ensures { result ≡ fault_of_options options.now (given_in (rows_in matches.now)) }
{
    if let Some(option) = first_no_number(options, matches) {
        return Some(WordFault::Number(option));
    }
    if let Some(option) = first_out_of_range(options, matches) {
        return Some(WordFault::Range(option));
    }
    None
}

// The first option whose text is no number.
fn first_no_number(options: &[Opt], matches: &ArgMatches<'_>) -> Option<Opt>
    ensures { result ≡ no_number_of options.now (given_in (rows_in matches.now)) }
{
    options
        .iter()
        .copied()
        .find(|option| has_no_number(matches, *option))
}

// The first option that doesn't take its number.
fn first_out_of_range(options: &[Opt], matches: &ArgMatches<'_>) -> Option<Opt>
    ensures { result ≡ out_of_range_of options.now (given_in (rows_in matches.now)) }
{
    options
        .iter()
        .copied()
        .find(|option| is_beyond(matches, *option))
}

// Whether a text is given for the option that is no number.
fn has_no_number(matches: &ArgMatches<'_>, option: Opt) -> bool
    ensures { result ≡ is_no_number (given_in (rows_in matches.now)) option }
{
    match given(matches, option) {
        Some(text) => number(text).is_none(),
        None => false,
    }
}

// Whether a number is given for the option that it doesn't take.
fn is_beyond(matches: &ArgMatches<'_>, option: Opt) -> bool
    ensures { result ≡ is_out_of_range (given_in (rows_in matches.now)) option }
{
    match given(matches, option) {
        Some(text) => lies_beyond(option, number(text)),
        None => false,
    }
}

// Whether this is a number that the option doesn't take.
fn lies_beyond(option: Opt, number: Option<u64>) -> bool
    ensures { result ≡ option_map_or (λ n. not (is_in_range option n)) number false }
{
    match number {
        Some(n) => !takes(option, n),
        None => false,
    }
}

// Whether the option takes the number.
fn takes(option: Opt, n: u64) -> bool
    ensures { result ≡ is_in_range option n }
{
    option.least() <= n && n <= option.most()
}

// What an option is at this area: the number that is given for it, or its default.
pub(crate) fn value_at(area: u64, matches: &ArgMatches<'_>, option: Opt) -> u64
    requires { IsTaken (given_in (rows_in matches.now)) option }
    ensures value { result ≡ value_of area (given_in (rows_in matches.now)) option }
    ensures least { least_of option ≤ result }
    ensures most { result ≤ most_of option }
{
    match given(matches, option) {
        Some(text) => number(text).unwrap(),
        None => option.default_at(area),
    }
}

// The number that a text is, if it is one.
fn number(text: &str) -> Option<u64>
    ensures { result ≡ (if is_number text.now then Some (number_of text.now) else None) }
{
    if !are_digits(text.as_bytes()) {
        return None;
    }
    text.parse::<u64>().ok()
}

// Whether bytes are one to ten decimal digits.
fn are_digits(bytes: &[u8]) -> bool
    ensures { result ≡ is_number bytes.now }
{
    !bytes.is_empty() && bytes.len() <= MOST_DIGITS && all_digits(bytes)
}

fn all_digits(bytes: &[u8]) -> bool
    ensures { result ≡ list_all is_ascii_digit bytes.now }
{
    bytes.iter().all(|byte| byte.is_ascii_digit())
}
