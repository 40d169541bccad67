//! The numbers of commands: their names, what they may be, and what they are where they aren't given. This is their
//! one table, and a command that comes to have a new one adds a line to each part. Most are options; those of `sample`
//! stand there without a name, and are always given.
ghost use Rattle.std.specs.Prelude.{◌≡◌};

use crate::limits::{MOST_BUDGET, MOST_EXTRA, MOST_GATES, MOST_SAMPLE, MOST_WORKERS};
use bx_grid::MOST_LIMIT;

/// A number that words may give. Where a command has several, they are told of in this order.
#[derive(Clone, Copy)]
pub enum Opt {
    /// The most tiles in all.
    Area,
    /// The most tiles in a row.
    Width,
    /// The most rows.
    Height,
    /// How much work may be done for one ratio.
    Budget,
    /// How many workers share the ratios, or the steps of a certificate.
    Workers,
    /// The number that a sample is drawn from.
    Number,
    /// How many gates of a sample its outputs may need.
    Gates,
    /// How many further gates a sample has.
    Extra,
}

impl Opt {
    ghost use Rattle.bx_words.specs.Options.{option_name, least_of, most_of, default_of};

    /// The option's name, as it stands behind `--`, or that of a number of `sample`.
    pub const fn name(self) -> &'static str
        ensures { result.now ≡ option_name self }
    {
        match self {
            Opt::Area => "area",
            Opt::Width => "width",
            Opt::Height => "height",
            Opt::Budget => "budget",
            Opt::Workers => "workers",
            Opt::Number => "number",
            Opt::Gates => "gates",
            Opt::Extra => "extra",
        }
    }

    // The least number that the option takes.
    pub(crate) fn least(self) -> u64
        ensures { result ≡ least_of self }
    {
        match self {
            Opt::Area | Opt::Width | Opt::Height | Opt::Workers | Opt::Gates => 1,
            Opt::Budget | Opt::Number | Opt::Extra => 0,
        }
    }

    // The most number that the option takes.
    pub(crate) fn most(self) -> u64
        ensures { result ≡ most_of self }
    {
        match self {
            Opt::Area | Opt::Width | Opt::Height => u64::from(MOST_LIMIT),
            Opt::Budget => MOST_BUDGET,
            Opt::Workers => u64::from(MOST_WORKERS),
            Opt::Number => u64::from(MOST_SAMPLE),
            Opt::Gates => u64::from(MOST_GATES),
            Opt::Extra => u64::from(MOST_EXTRA),
        }
    }

    // What the option is where it isn't given. Larger areas have larger formulas, so there the budget is less.
    pub(crate) fn default_at(self, area: u64) -> u64
        ensures { result ≡ default_of self area }
    {
        match self {
            Opt::Area => 100,
            Opt::Width | Opt::Height => u64::from(MOST_LIMIT),
            Opt::Budget => { if area <= 132 { 100_000 } else { 50_000 } }
            Opt::Workers => 4,
            // (these are always given)
            Opt::Number | Opt::Extra => 0,
            Opt::Gates => 1,
        }
    }
}
