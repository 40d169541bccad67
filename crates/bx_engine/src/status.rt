//! How a run ends: each status with what it names, and the exit status of the program for it. When
//! each comes is said by the clauses of `run`; what is said beside it is the texts' concern.
ghost use Rattle.std.specs.Prelude.{◌≡◌};

use bx_cert::CertFault;
use bx_dots::CutFault;
use bx_grid::Ratio;
use bx_lex::LexFault;
use bx_library::LibraryFault;
use bx_logic::Name;
use bx_siqad::DesignFault;
use bx_verify::Part;
use bx_verilog::{NetFault, ReadFault};
use bx_words::WordFault;

/// How a run ended.
#[derive(Drop)]
pub enum Status {
    /// A layout was found, of this ratio. Design and certificate were written, and the report said.
    Found(Ratio),
    /// The first ratio that isn't refuted, and how much of the budget was spent on it: the next step would have
    /// passed the budget. The certificate was written, and the report said.
    Undecided(Ratio, u64),
    /// No ratio within the limits has a layout. The certificate was written, and the report said.
    NoneWithin,
    /// The input was refused, and the refusal was said.
    Refused(InputFault),
    /// The design and the certificate are right: no ratio before this one has a layout. This was said.
    Minimal(Ratio),
    /// This part of design and certificate is the first that fails, at this number. This was said.
    Wrong(Part, u64),
    /// All that was asked for was said.
    Done,
    /// A file could not be read. Nothing was said.
    ReadFault(Which),
    /// Something could not be written or said. A front of it may have been.
    WriteFault(Which),
    /// Memory was refused. Nothing was said.
    NoMemory,
    /// Something is wrong with the words, and the refusal was said.
    Words(WordFault),
}

/// What is wrong with an input. The module is read first, in this order, and where nothing is wrong with it
/// the library, and then design and certificate, each where the command reads it; the first that is wrong is
/// answered. Want of memory is no fault of an input, so no fault of a lower reader that stands here is that.
#[derive(Drop)]
pub enum InputFault {
    /// The file is longer than is read.
    TooLong(Which),
    /// The text can't be cut into tokens: its first bad byte, open comment or open attribute.
    Lex(LexFault),
    /// The tokens are no module, or nest too deep.
    Read(ReadFault),
    /// Something is wrong with the module's ports, drivers or names, as `NetFault` says.
    Net(NetFault),
    /// This output always has one value, and no earlier one does.
    Constant(Name),
    /// The mapped network has so many nodes, more than are laid out.
    Nodes(u64),
    /// The text is no library of forms, as `LibraryFault` says.
    Library(LibraryFault),
    /// The text is no design, as `DesignFault` says.
    Design(DesignFault),
    /// The design's dots are cut into no form grid of these sides by the library, as `CutFault` says.
    Cut(CutFault, Ratio),
    /// The text is no certificate, as `CertFault` says.
    Cert(CertFault),
}

/// A file or output that a fault is about.
#[derive(Clone, Copy)]
pub enum Which {
    /// The file of the module, which the words name.
    NetFile,
    /// The file of the library, which the words name.
    LibFile,
    /// The file that the design is written to or read from, which the words name.
    DesignFile,
    /// The file that the certificate is written to or read from, which the words name.
    CertFile,
    /// What the run says.
    Output,
}

impl Status {
    ghost use Rattle.bx_engine.specs.Statuses.{exit_status};

    /// The exit status of the program: 0 found, minimal or done, 1 refused, 2 undecided, 3 none within the
    /// limits, 4 read or write fault, 5 no memory, 6 words, 7 wrong.
    pub fn code(&self) -> u8
        ensures { result ≡ exit_status self.now }
    {
        match self {
            Status::Found(_) | Status::Minimal(_) | Status::Done => 0,
            Status::Refused(_) => 1,
            Status::Undecided(_, _) => 2,
            Status::NoneWithin => 3,
            Status::ReadFault(_) | Status::WriteFault(_) => 4,
            Status::NoMemory => 5,
            Status::Words(_) => 6,
            Status::Wrong(_, _) => 7,
        }
    }
}
