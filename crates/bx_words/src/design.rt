//! The words of `design`, where all its options are numbers in their ranges.
ghost use Rattle.std.specs.Prelude.{◌≡◌, ◌≤◌, false, None, Some, IfOk, IfErr, OnOk, IsSome, All};
ghost use Rattle.bx_grid.specs.Orders.{AreLimits};
ghost use Rattle.bx_words.specs.Clap.{given_in, named_in, rows_in};
ghost use Rattle.bx_words.specs.Numbers.{AreTaken};
ghost use Rattle.bx_words.specs.Verbs.{files_of, line_of, opts_of};
ghost use Rattle.bx_words.specs.Names.{is_written_over};
ghost use Rattle.bx_words.specs.Words.{limits_of, budget_of, work_of as work_for, own_fault, IsDesign};

use crate::commands::DesignCommand;
use crate::faults::WordFault;
use crate::limits::{MOST_BUDGET, MOST_WORK};
use crate::numbers::value_at;
use crate::opts::Opt;
use crate::parse::named;
use crate::verbs::{File, Verb};
use bx_grid::{Limits, Ratios};
use clap::ArgMatches;

// The command, or what is wrong with it: a search has an end in time.
pub(crate) fn read_design<'w>(matches: &ArgMatches<'w>) -> Result<DesignCommand<'w>, WordFault>
    requires named { All (λ file. IsSome (named_in (rows_in matches.now) file))
        (files_of (line_of Verb.Design)) }
    requires numbers { AreTaken (opts_of (line_of Verb.Design)) (given_in (rows_in matches.now)) }
    requires apart { is_written_over (rows_in matches.now)
        (line_of Verb.Design).read (line_of Verb.Design).written ≡ false }
    ensures sound { OnOk result (own_fault Verb.Design (rows_in matches.now) ≡ None) }
    ensures design { IfOk result (IsDesign (rows_in matches.now)) }
    ensures fault { IfErr result
        (λ fault. own_fault Verb.Design (rows_in matches.now) ≡ Some fault) }
{
    let net = named(matches, File::Net).unwrap();
    let lib = named(matches, File::Lib).unwrap();
    let design = named(matches, File::Design).unwrap();
    let cert = named(matches, File::Cert).unwrap();
    let limits = limits(matches);
    let area = u64::from(limits.area);
    let budget = value_at(area, matches, Opt::Budget);
    let workers = value_at(area, matches, Opt::Workers) as u32;
    let work = work_of(limits, budget);
    if work > MOST_WORK {
        return Err(WordFault::Work(work));
    }
    Ok(DesignCommand {
        net,
        lib,
        design,
        cert,
        limits,
        budget,
        workers,
    })
}

// The limits, given or by default.
fn limits(matches: &ArgMatches<'_>) -> Limits
    requires { AreTaken (opts_of (line_of Verb.Design)) (given_in (rows_in matches.now)) }
    ensures value { result ≡ limits_of (given_in (rows_in matches.now)) }
    ensures range { AreLimits result }
{
    let area = value_at(0, matches, Opt::Area);
    let width = value_at(area, matches, Opt::Width);
    let height = value_at(area, matches, Opt::Height);
    Limits {
        area: area as u32,
        width: width as u32,
        height: height as u32,
    }
}

// The budget times the number of ratios.
#[tactic(auto, using(crate::proofs::Work::few_ratios))]
fn work_of(limits: Limits, budget: u64) -> u64
    requires limits { AreLimits limits }
    requires budget { budget ≤ MOST_BUDGET }
    ensures { result ≡ work_for limits budget }
{
    budget * Ratios::new(limits).len()
}
