//! The commands, each with the names of its files, its numbers and its options. This is their one table, and a new command
//! adds a line to it.
ghost use Rattle.std.specs.Prelude.{◌≡◌, find, map};
ghost use Rattle.std.specs.Str.{bytes_eq};
ghost use Rattle.bx_words.specs.Verbs.{Text, file_name, line_of, verb_of, texts};

use crate::opts::Opt;

/// A file that a command's words name.
#[derive(Clone, Copy)]
pub enum File {
    /// The module.
    Net,
    /// The library of forms.
    Lib,
    /// The design: the dots of a layout.
    Design,
    /// The certificate.
    Cert,
}

impl File {
    // What `clap` calls the file.
    pub(crate) fn name(self) -> &'static str
        ensures { result.now ≡ file_name self }
    {
        match self {
            File::Net => "NET",
            File::Lib => "LIB",
            File::Design => "DESIGN",
            File::Cert => "CERT",
        }
    }
}

/// A command's first word.
#[derive(Clone, Copy)]
pub enum Verb {
    /// `design`.
    Design,
    /// `verify`.
    Verify,
    /// `extract`.
    Extract,
    /// `sample`.
    Sample,
}

static DESIGN_READ: [File; 2] = [File::Net, File::Lib];

static DESIGN_WRITTEN: [File; 2] = [File::Design, File::Cert];

static VERIFY_READ: [File; 4] = [File::Net, File::Lib, File::Design, File::Cert];

static EXTRACT_READ: [File; 2] = [File::Lib, File::Design];

static NO_FILES: [File; 0] = [];

static SAMPLE_NUMBERS: [Opt; 3] = [Opt::Number, Opt::Gates, Opt::Extra];

static VERIFY_OPTIONS: [Opt; 1] = [Opt::Workers];

static NO_OPTIONS: [Opt; 0] = [];

static DESIGN_OPTIONS: [Opt; 5] = [
    Opt::Area,
    Opt::Width,
    Opt::Height,
    Opt::Budget,
    Opt::Workers,
];

impl Verb {
    // The word.
    pub(crate) fn name(self) -> &'static str
        ensures { result.now ≡ (line_of self).name }
    {
        match self {
            Verb::Design => "design",
            Verb::Verify => "verify",
            Verb::Extract => "extract",
            Verb::Sample => "sample",
        }
    }

    // The files that are read, in the order of the words.
    pub(crate) fn read(self) -> &'static [File]
        ensures { result.now ≡ (line_of self).read }
    {
        match self {
            Verb::Design => DESIGN_READ.as_slice(),
            Verb::Verify => VERIFY_READ.as_slice(),
            Verb::Extract => EXTRACT_READ.as_slice(),
            Verb::Sample => NO_FILES.as_slice(),
        }
    }

    // The files that are written. They stand behind those that are read.
    pub(crate) fn written(self) -> &'static [File]
        ensures { result.now ≡ (line_of self).written }
    {
        match self {
            Verb::Design => DESIGN_WRITTEN.as_slice(),
            Verb::Verify | Verb::Extract | Verb::Sample => NO_FILES.as_slice(),
        }
    }

    // The numbers that stand behind the files, in the order of the words.
    pub(crate) fn numbers(self) -> &'static [Opt]
        ensures { result.now ≡ (line_of self).numbers }
    {
        match self {
            Verb::Sample => SAMPLE_NUMBERS.as_slice(),
            Verb::Design | Verb::Verify | Verb::Extract => NO_OPTIONS.as_slice(),
        }
    }

    // The options, in the order in which faults are told of.
    pub(crate) fn options(self) -> &'static [Opt]
        ensures { result.now ≡ (line_of self).options }
    {
        match self {
            Verb::Design => DESIGN_OPTIONS.as_slice(),
            Verb::Verify => VERIFY_OPTIONS.as_slice(),
            Verb::Extract | Verb::Sample => NO_OPTIONS.as_slice(),
        }
    }
}

static VERBS: [Verb; 4] = [Verb::Design, Verb::Verify, Verb::Extract, Verb::Sample];

// The command that the words name.
pub(crate) fn find_verb(words: &[String]) -> Option<Verb>
    ensures { result ≡ verb_of (texts words.now) }
{
    let word = words.first()?.as_str();
    named_verb(VERBS.as_slice(), word)
}

// The first of these commands that has the name.
fn named_verb(verbs: &[Verb], name: &str) -> Option<Verb>
    ensures { result ≡ find (λ verb. bytes_eq (line_of verb).name name.now) verbs.now }
{
    verbs.iter().copied().find(|verb| verb.name() == name)
}
