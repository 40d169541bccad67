//! The commands with what the words say of them.
ghost use Rattle.std.specs.Prelude.{◌≤◌, ◌*◌, ◌∷◌, [], length};
ghost use Rattle.bx_grid.specs.Orders.{AreLimits, order};
ghost use Rattle.bx_words.specs.Options.{least_of, most_of, most_work, most_workers};
ghost use Rattle.bx_words.specs.declared.opts.Opt.TheVariants.{Number, Gates, Extra};
ghost use Rattle.bx_words.specs.Names.{AreApart};

use bx_grid::Limits;

/// A command, as the words give it.
#[derive(Clone, Copy)]
pub enum Command<'w> {
    /// Lays out a module.
    Design(DesignCommand<'w>),
    /// Verifies a design and a certificate.
    Verify(VerifyCommand<'w>),
    /// Reads the forms of a design.
    Extract(ExtractCommand<'w>),
    /// Lays out a module that is made from a number.
    Sample(SampleCommand),
}

/// The words `design NET LIB DESIGN CERT`, with the options as they are given or by default. No file is written
/// over another, and the work is small enough for a search.
#[derive(Clone, Copy)]
pub struct DesignCommand<'w> {
    /// The file of the module.
    pub net: &'w str,
    /// The file of the library.
    pub lib: &'w str,
    /// The file that the design is written to.
    pub design: &'w str,
    /// The file that the certificate is written to.
    pub cert: &'w str,
    /// The largest ratios that are tried.
    pub limits: Limits,
    /// How much work may be done for one ratio.
    pub budget: u64,
    /// How many workers share the ratios, from 1 to [`MOST_WORKERS`](crate::MOST_WORKERS).
    pub workers: u32,
    pub ghost limits_are: { AreLimits limits },
    pub ghost apart: { AreApart (net.now ∷ lib.now ∷ []) (design.now ∷ cert.now ∷ []) },
    pub ghost work: { budget * length (order limits) ≤ most_work },
    pub ghost some_workers: { 1 ≤ workers },
    pub ghost few_workers: { workers ≤ most_workers },
}

/// The words `verify NET LIB DESIGN CERT`.
#[derive(Clone, Copy)]
pub struct VerifyCommand<'w> {
    /// The file of the module.
    pub net: &'w str,
    /// The file of the library.
    pub lib: &'w str,
    /// The file of the design.
    pub design: &'w str,
    /// The file of the certificate.
    pub cert: &'w str,
    /// How many workers share the steps, from 1 to [`MOST_WORKERS`](crate::MOST_WORKERS).
    pub workers: u32,
    pub ghost some_workers: { 1 ≤ workers },
    pub ghost few_workers: { workers ≤ most_workers },
}

/// The words `extract LIB DESIGN`.
#[derive(Clone, Copy)]
pub struct ExtractCommand<'w> {
    /// The file of the library.
    pub lib: &'w str,
    /// The file of the design.
    pub design: &'w str,
}

/// The words `sample NUMBER GATES EXTRA`.
#[derive(Clone, Copy)]
pub struct SampleCommand {
    /// The number that the sample is drawn from, up to 2,147,483,647.
    pub number: u32,
    /// How many gates its outputs may need, from 1 to 32.
    pub gates: u32,
    /// How many further gates it has, up to 10,000.
    pub extra: u32,
    pub ghost number_is: { number ≤ most_of Number },
    pub ghost some_gates: { least_of Gates ≤ gates },
    pub ghost few_gates: { gates ≤ most_of Gates },
    pub ghost few_extra: { extra ≤ most_of Extra },
}
