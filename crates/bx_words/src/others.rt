//! The words of the commands that write no file, where all their numbers are in their ranges. Nothing else can be
//! wrong with them.
ghost use Rattle.std.specs.Prelude.{IsSome, All};
ghost use Rattle.bx_words.specs.Clap.{given_in, named_in, rows_in};
ghost use Rattle.bx_words.specs.Numbers.{AreTaken};
ghost use Rattle.bx_words.specs.Verbs.{files_of, line_of, opts_of};
ghost use Rattle.bx_words.specs.Words.{IsExtract, IsSample, IsVerify};

use crate::commands::{ExtractCommand, SampleCommand, VerifyCommand};
use crate::numbers::value_at;
use crate::opts::Opt;
use crate::parse::named;
use crate::verbs::{File, Verb};
use clap::ArgMatches;

// The command `verify`.
pub(crate) fn read_verify<'w>(matches: &ArgMatches<'w>) -> VerifyCommand<'w>
    requires named { All (λ file. IsSome (named_in (rows_in matches.now) file))
        (files_of (line_of Verb.Verify)) }
    requires numbers { AreTaken (opts_of (line_of Verb.Verify)) (given_in (rows_in matches.now)) }
    ensures { IsVerify (rows_in matches.now) result }
{
    let net = named(matches, File::Net).unwrap();
    let lib = named(matches, File::Lib).unwrap();
    let design = named(matches, File::Design).unwrap();
    let cert = named(matches, File::Cert).unwrap();
    let workers = value_at(0, matches, Opt::Workers) as u32;
    VerifyCommand {
        net,
        lib,
        design,
        cert,
        workers,
    }
}

// The command `extract`.
pub(crate) fn read_extract<'w>(matches: &ArgMatches<'w>) -> ExtractCommand<'w>
    requires { All (λ file. IsSome (named_in (rows_in matches.now) file))
        (files_of (line_of Verb.Extract)) }
    ensures { IsExtract (rows_in matches.now) result }
{
    let lib = named(matches, File::Lib).unwrap();
    let design = named(matches, File::Design).unwrap();
    ExtractCommand { lib, design }
}

// The command `sample`.
pub(crate) fn read_sample(matches: &ArgMatches<'_>) -> SampleCommand
    requires { AreTaken (opts_of (line_of Verb.Sample)) (given_in (rows_in matches.now)) }
    ensures { IsSample (rows_in matches.now) result }
{
    let number = value_at(0, matches, Opt::Number) as u32;
    let gates = value_at(0, matches, Opt::Gates) as u32;
    let extra = value_at(0, matches, Opt::Extra) as u32;
    SampleCommand {
        number,
        gates,
        extra,
    }
}
