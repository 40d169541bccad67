//! The one call that the program makes: from its words to a design and a certificate, a said report or refusal, and a
//! status.
//!
//! Its clauses are the tool's promise. What is answered is one function of the words and of the files that they
//! name. Each status is tied to its cause in both directions: it comes only where its cause stands, and where the
//! cause stands nothing else comes but want of memory or a fault of the desk, which in turn come only where the
//! desk's count of such faults rose. And of each ratio that is told of, what is told is worth what it says.
ghost use Rattle.std.specs.Prelude.{◌≡◌, ◌≢◌, ◌⊎◌, ℕ, All, Option, Some, None, IsSomeAnd};
ghost use Rattle.bx_cert.specs.Certs.{Certificate};
ghost use Rattle.bx_desk.specs.Desk.{Files, FailsToLoad, Rose, Says};
ghost use Rattle.bx_design.specs.Solutions.{IsSolution};
ghost use Rattle.bx_design.specs.declared.solution.LaidOut.{LaidOut};
ghost use Rattle.bx_dots.specs.Permits.{permit_of};
ghost use Rattle.bx_grid.specs.declared.ratio.Ratio.{Ratio};
ghost use Rattle.bx_layout.specs.Grids.{FormGrid};
ghost use Rattle.bx_library.specs.Tiles.{Tiles};
ghost use Rattle.bx_syntax.specs.Parts.{ModuleTree};
ghost use Rattle.bx_verify.specs.Answers.{IsVerdict};
ghost use Rattle.bx_verify.specs.Failing.{NoneFails, IsFirstToFail};
ghost use Rattle.bx_verify.specs.Meaning.{IsMinimal};
ghost use Rattle.bx_verify.specs.declared.verdict.Part.{Part};
ghost use Rattle.bx_verify.specs.declared.verdict.Verdict.{Verdict};
ghost use Rattle.bx_verilog.specs.Elaboration.{net_of};
ghost use Rattle.bx_verilog.specs.Formulas.{Text};
ghost use Rattle.bx_words.specs.Verbs.{texts};
ghost use Rattle.bx_words.specs.Words.{first_fault};
ghost use Rattle.bx_engine.specs.Answers.{Answer, IsAnswer, IsStatusOf, Solves, search_answer};
ghost use Rattle.bx_engine.specs.Effects.{Gives, HasGivenSome, FailsToGive, NoneFell, NoneRose, RoseWriting, file_at};
ghost use Rattle.bx_engine.specs.Grids.{TellsGrid};
ghost use Rattle.bx_engine.specs.Jobs.{Job, samples, IsJob};
ghost use Rattle.bx_engine.specs.Replies.{IsUnextracted, IsExtracted, IsUnjudged};
ghost use Rattle.bx_engine.specs.Runs.{HasAnswer, EndsRun, HasReached, ReadsModule, ReadsLibrary};
ghost use Rattle.bx_engine.specs.Said.{refusal_text, word_fault_text, input_fault_text};
ghost use Rattle.bx_engine.specs.Samples.{sample_inputs, sample_limits, summary_text};
ghost use Rattle.bx_engine.specs.Statuses.{IsSettled, HasSearched, status_of};
ghost use Rattle.bx_engine.specs.Steps.{HasPlaces, EndsGiving, EndsDesign, EndsCommand, task_of};
ghost use Rattle.bx_engine.specs.Tasks.{Task, IsTask, IsThere, inputs_of};
ghost use Rattle.bx_engine.specs.Texts.{AreRefused, AreTaken, network_of};
ghost use Rattle.bx_engine.specs.Told.{OfTask, OfModule, OfExtraction, OfJudgement, OfHeld};
ghost use Rattle.bx_engine.specs.Verdicts.{status_for, verdict_text};
ghost use Rattle.bx_engine.specs.Worth.{IsFound, IsLeftUndecided, IsNoneWithin};

use crate::extract::serve_extract;
use crate::load::{Module, NoInput, load_library, load_module};
use crate::plan::{Plan, make_plan};
use crate::sample::serve_sample;
use crate::say::{refuse, refuse_words, report};
use crate::status::{InputFault, Status, Which};
use crate::verify::serve_verify;
use crate::write::write_files;
use bx_desk::{Desk, Gate};
use bx_library::Library;
use bx_logic::NoMemory;
use bx_words::{Command, DesignCommand, NoCommand, WordFault, read_words};
use std::alloc::Global;
use std::thread::Threads;

/// Runs the command of the words: `design NET LIB DESIGN CERT` finds the layout of least area and then width of the
/// module in the file NET, of forms of the library in LIB; writes its dots to DESIGN and the certificate that no
/// earlier ratio has a layout to CERT; and says the report. `verify NET LIB DESIGN CERT` reads all four, and says
/// whether they are right. `extract LIB DESIGN` says the forms that a design is made of, and `sample NUMBER GATES EXTRA`
/// what comes of a module that is made from numbers. It waits for nobody. All the memory that it takes is taken before
/// DESIGN is started. What it does is the same for every number of workers.
pub fn run<T: Threads + Sync, D: Desk, G: Gate + Sync>(
    threads: &T,
    alloc: Global,
    words: &[String],
    desk: &mut D,
    gate: &G,
) -> Status
    // What is answered is one function of the words and of the files that they name: a settled status is its status, its
    // files were written in their order and its text was said, and nothing else changed. Where the desk doesn't tell
    // its files, that is so of what was read.
    ensures answered { IsSettled result → (answer : Answer)
        × HasAnswer (texts words.now) (D.state desk.old).files answer
        × (result ≡ answer.status) × Gives (D.state desk.old) (D.state desk.new) answer }
    ensures exact { IsSettled result → (files : Files) → (D.state desk.old).files ≡ Some files
        → (answer : Answer) → IsAnswer (texts words.now) (inputs_of files) answer
        → (result ≡ answer.status) × Gives (D.state desk.old) (D.state desk.new) answer }

    // Words are refused for what is first wrong with them, and for nothing else. The refusal is said, and nothing
    // else changes.
    ensures words_only { (fault : WordFault) → result ≡ Status.Words fault
        → first_fault (texts words.now) ≡ Some fault }
    ensures words { IsSettled result → (fault : WordFault)
        → first_fault (texts words.now) ≡ Some fault
        → result ≡ Status.Words fault }
    ensures words_said { (fault : WordFault) → result ≡ Status.Words fault
        → Says (D.state desk.old) (D.state desk.new) (refusal_text (word_fault_text fault)) }

    // Module and library are refused for what is first wrong with them, at its place, and for nothing else. The
    // refusal is said, and nothing else changes.
    ensures refused_only { (fault : InputFault) → result ≡ Status.Refused fault
        → OfTask (texts words.now) (D.state desk.old) (λ task inputs. AreRefused inputs fault) }
    ensures refused { IsSettled result → OfTask (texts words.now) (D.state desk.old)
        (λ task inputs. (fault : InputFault) → AreRefused inputs fault
        → result ≡ Status.Refused fault) }
    ensures refused_said { (fault : InputFault) → result ≡ Status.Refused fault
        → Says (D.state desk.old) (D.state desk.new) (refusal_text (input_fault_text fault)) }

    // The ratios of the others are searched: the status is that of the solution of the module's network by the forms
    // of the library, whether a layout is found, left undecided or none, and of nothing else.
    ensures searched_only { HasSearched result → OfTask (texts words.now) (D.state desk.old)
        (λ task inputs. (m : ModuleTree) × (lib : Tiles) × AreTaken inputs m lib
        × IsStatusOf task m lib result) }
    ensures taken { IsSettled result → OfModule (texts words.now) (D.state desk.old)
        (λ task m lib. IsStatusOf task m lib result) }
    ensures searched { IsSettled result → OfModule (texts words.now) (D.state desk.old)
        (λ task m lib. (cert : Certificate) (found : Option LaidOut)
        → Solves task m lib cert found → result ≡ status_of cert.last) }

    // For every module, library, limits, budget and number of workers: the dots of the design that is written, cut by
    // the library, make a sound grid that computes the module with the pins that are printed, and the certificate that
    // is written shows that no earlier ratio has a legal layout of forms of the library. Else the first ratio that
    // stays undecided is told, or that there is none; then no design is written.
    ensures found { (ratio : Ratio) → result ≡ Status.Found ratio
        → OfModule (texts words.now) (D.state desk.old)
        (λ task m lib. HasGivenSome (D.state desk.old) (D.state desk.new) task
        (λ design cert said. IsSomeAnd design (λ bytes. IsFound task m lib ratio bytes cert said))) }
    ensures undecided { (ratio : Ratio) (spent : ℕ) → result ≡ Status.Undecided ratio spent
        → OfModule (texts words.now) (D.state desk.old)
        (λ task m lib. HasGivenSome (D.state desk.old) (D.state desk.new) task
        (λ design cert said. (design ≡ None) × IsLeftUndecided task m lib ratio spent cert said)) }
    ensures none_within { result ≡ Status.NoneWithin
        → OfModule (texts words.now) (D.state desk.old)
        (λ task m lib. HasGivenSome (D.state desk.old) (D.state desk.new) task
        (λ design cert said. (design ≡ None) × IsNoneWithin task m lib cert said)) }

    // `extract` is refused for what is first wrong with the library, the design or the cut, and for nothing else. Else
    // it is done: the form grid that the dots of the design are cut into is said, and whether it is sound.
    ensures unextracted_only { (fault : InputFault) → result ≡ Status.Refused fault
        → OfExtraction (texts words.now) (D.state desk.old) (λ inputs. IsUnextracted inputs fault) }
    ensures unextracted { IsSettled result → OfExtraction (texts words.now) (D.state desk.old)
        (λ inputs. (fault : InputFault) → IsUnextracted inputs fault
        → result ≡ Status.Refused fault) }
    ensures extracted_only { result ≡ Status.Done
        → OfExtraction (texts words.now) (D.state desk.old)
        (λ inputs. (grid : FormGrid) × IsExtracted inputs grid) }
    ensures extracted { IsSettled result → OfExtraction (texts words.now) (D.state desk.old)
        (λ inputs. (grid : FormGrid) → IsExtracted inputs grid → (result ≡ Status.Done)
        × ((said : Text) × TellsGrid grid said × Says (D.state desk.old) (D.state desk.new) said)) }

    // `verify` is refused for what is first wrong with the module, the library, the design or the certificate, and for
    // nothing else. Else the verdict is said: the first part that fails is wrong, or none fails. Where none does, the
    // found ratio is minimal, whoever made the files: the design computes the module, and no earlier ratio within the
    // certificate's limits has a legal layout of forms of the library.
    ensures unjudged_only { (fault : InputFault) → result ≡ Status.Refused fault
        → OfJudgement (texts words.now) (D.state desk.old) (λ inputs. IsUnjudged inputs fault) }
    ensures unjudged { IsSettled result → OfJudgement (texts words.now) (D.state desk.old)
        (λ inputs. (fault : InputFault) → IsUnjudged inputs fault → result ≡ Status.Refused fault) }
    ensures judged { IsSettled result → OfHeld (texts words.now) (D.state desk.old)
        (λ m lib drawing cert. (verdict : Verdict)
        × IsVerdict (network_of m) lib drawing cert verdict × (result ≡ status_for verdict)
        × Says (D.state desk.old) (D.state desk.new) (verdict_text cert verdict)) }
    ensures minimal { (ratio : Ratio) → result ≡ Status.Minimal ratio
        → OfHeld (texts words.now) (D.state desk.old)
        (λ m lib drawing cert. NoneFails (network_of m) lib drawing cert
        × IsMinimal (net_of m) lib drawing cert ratio) }
    ensures wrong { (part : Part) (k : ℕ) → result ≡ Status.Wrong part k
        → OfHeld (texts words.now) (D.state desk.old)
        (λ m lib drawing cert. IsFirstToFail (network_of m) lib drawing cert part k) }

    // `sample` lays out the module that its three numbers make by the sample library, as `design` would within the
    // limits and the budget of samples: the status is that of the solution, and its summary is said. Where a text is
    // refused, so is the sample.
    ensures unsampled_only { (fault : InputFault) → result ≡ Status.Refused fault
        → (number gates extra : ℕ) → IsJob (texts words.now) (samples number gates extra)
        → AreRefused (sample_inputs number gates extra) fault }
    ensures unsampled { IsSettled result → (number gates extra : ℕ)
        → IsJob (texts words.now) (samples number gates extra) → (fault : InputFault)
        → AreRefused (sample_inputs number gates extra) fault → result ≡ Status.Refused fault }
    ensures sampled { IsSettled result → (number gates extra : ℕ)
        → IsJob (texts words.now) (samples number gates extra) → (m : ModuleTree) (lib : Tiles)
        → AreTaken (sample_inputs number gates extra) m lib
        → (cert : Certificate) (found : Option LaidOut)
        → IsSolution (network_of m) (permit_of lib) sample_limits 2000 cert found
        → (result ≡ status_of cert.last) × Says (D.state desk.old) (D.state desk.new)
        (summary_text number gates extra (network_of m) cert) }

    // A status that says anything of a file comes only where the file is there, and where nothing failed.
    ensures there { IsSettled result → (task : Task) → IsTask (texts words.now) task
        → IsThere (D.state desk.old).files task.net }
    ensures library_there { HasSearched result → (task : Task) → IsTask (texts words.now) task
        → IsThere (D.state desk.old).files task.lib }
    ensures settled_no_fault { IsSettled result
        → (D.state desk.new).faults ≡ (D.state desk.old).faults }

    // Faults of the desk come only where its counts rose, so where none rose the status is settled or want of memory.
    // After a fault of reading nothing but the count of loads has changed, and after want of memory nothing at all:
    // nothing was written or said, nor tried to be. The library is read only where the module is taken.
    ensures read_rose { (which : Which) → result ≡ Status.ReadFault which
        → Rose (D.state desk.old).faults.load (D.state desk.new).faults.load }
    ensures write_rose { (which : Which) → result ≡ Status.WriteFault which
        → RoseWriting which (D.state desk.old).faults (D.state desk.new).faults }
    ensures complete { NoneRose (D.state desk.old).faults (D.state desk.new).faults
        → (result ≡ Status.NoMemory) ⊎ IsSettled result }
    ensures read_fault { (which : Which) → result ≡ Status.ReadFault which
        → HasReached (texts words.now) (D.state desk.old).files which
        × FailsToLoad (D.state desk.old) (D.state desk.new) }
    ensures no_memory_stays { result ≡ Status.NoMemory → D.state desk.new ≡ D.state desk.old }

    // After a fault of writing to a file those before it are whole, it is as it was or empty where it couldn't be
    // started, and else has a front of its text, those behind it are as they were, and nothing was said. After a fault
    // of saying all files are whole, and a front of the text was said.
    ensures write_fault { (which : Which) → result ≡ Status.WriteFault which → (answer : Answer)
        × HasAnswer (texts words.now) (D.state desk.old).files answer
        × FailsToGive (D.state desk.old) (D.state desk.new) answer which }

    // Whatever comes, no count falls, and every file stays but those that the answer writes: at most those of design
    // and certificate of `design`, and that of the design only where a layout was found.
    ensures none_fell { NoneFell (D.state desk.old).faults (D.state desk.new).faults }
    ensures others_stay { (name : Text)
        → ((task : Task) → IsTask (texts words.now) task → (task.design ≢ name) × (task.cert ≢ name))
        → file_at (D.state desk.new).files name ≡ file_at (D.state desk.old).files name }
    ensures jobs_stay { (job : Job) → IsJob (texts words.now) job → (name : Text)
        → file_at (D.state desk.new).files name ≡ file_at (D.state desk.old).files name }
    ensures unwritten_stay { (files : Files) → (D.state desk.old).files ≡ Some files
        → (answer : Answer) → IsAnswer (texts words.now) (inputs_of files) answer → (name : Text)
        → All (λ file. file.name ≢ name) answer.files
        → file_at (D.state desk.new).files name ≡ file_at (D.state desk.old).files name }
{
    serve(threads, alloc, words, desk, gate)
}

// What `run` does, in one clause.
fn serve<T: Threads + Sync, D: Desk, G: Gate + Sync>(
    threads: &T,
    alloc: Global,
    words: &[String],
    desk: &mut D,
    gate: &G,
) -> Status
    ensures { EndsRun (texts words.now) (D.state desk.old) (D.state desk.new) result }
{
    match read_words(alloc, words) {
        Ok(command) => serve_command(threads, alloc, &command, desk, gate),
        Err(NoCommand::Fault(fault)) => refuse_words(desk, fault),
        Err(NoCommand::NoMemory) => Status::NoMemory,
    }
}

// Serves a command.
fn serve_command<T: Threads + Sync, D: Desk, G: Gate + Sync>(
    threads: &T,
    alloc: Global,
    command: &Command,
    desk: &mut D,
    gate: &G,
) -> Status
    ensures { EndsCommand command.now (D.state desk.old) (D.state desk.new) result }
{
    match command {
        Command::Design(command) => serve_design(threads, alloc, command, desk, gate),
        Command::Verify(command) => serve_verify(threads, alloc, command, desk),
        Command::Extract(command) => serve_extract(alloc, command, desk),
        Command::Sample(command) => serve_sample(threads, alloc, command, desk, gate),
    }
}

// Serves `design`: loads the module, and goes on where it is taken.
fn serve_design<T: Threads + Sync, D: Desk, G: Gate + Sync>(
    threads: &T,
    alloc: Global,
    command: &DesignCommand,
    desk: &mut D,
    gate: &G,
) -> Status
    ensures { EndsDesign command.now (D.state desk.old) (D.state desk.new) result }
{
    match load_module(alloc, command.net, desk) {
        Ok(source) => serve_module(threads, alloc, command, &source, desk, gate),
        Err(NoInput::Fault(fault)) => refuse(desk, fault),
        Err(NoInput::Unread) => Status::ReadFault(Which::NetFile),
        Err(NoInput::NoMemory) => Status::NoMemory,
    }
}

// Serves `design` for this module: loads the library, and goes on where it is taken.
fn serve_module<T: Threads + Sync, D: Desk, G: Gate + Sync>(
    threads: &T,
    alloc: Global,
    command: &DesignCommand,
    source: &Module,
    desk: &mut D,
    gate: &G,
) -> Status
    requires { ReadsModule (D.state desk.old).files command.now.net.now
        source.now.net source.now.mapped }
    ensures { EndsDesign command.now (D.state desk.old) (D.state desk.new) result }
{
    match load_library(alloc, command.lib, desk) {
        Ok(library) => lay_out(threads, alloc, command, source, &library, desk, gate),
        Err(NoInput::Fault(fault)) => refuse(desk, fault),
        Err(NoInput::Unread) => Status::ReadFault(Which::LibFile),
        Err(NoInput::NoMemory) => Status::NoMemory,
    }
}

// Lays a module out by the forms of a library, and gives what comes of it. No memory is taken after that.
fn lay_out<T: Threads + Sync, D: Desk, G: Gate + Sync>(
    threads: &T,
    alloc: Global,
    command: &DesignCommand,
    source: &Module,
    library: &Library,
    desk: &mut D,
    gate: &G,
) -> Status
    requires module { ReadsModule (D.state desk.old).files command.now.net.now
        source.now.net source.now.mapped }
    requires library { ReadsLibrary (D.state desk.old).files command.now.lib.now library.now }
    ensures { EndsDesign command.now (D.state desk.old) (D.state desk.new) result }
{
    match make_plan(threads, alloc, command, source, library, gate) {
        Ok(plan) => give(command, source, &plan, desk),
        Err(NoMemory) => Status::NoMemory,
    }
}

// Writes design and certificate, and then says the report.
fn give<D: Desk>(command: &DesignCommand, source: &Module, plan: &Plan, desk: &mut D) -> Status
    requires { HasPlaces source.now.mapped plan.now.solution.found }
    ensures { EndsGiving (D.state desk.old) (D.state desk.new)
        (search_answer (task_of command.now) source.now.net source.now.mapped
        plan.now.solution.cert plan.now.solution.found plan.now.design) result }
{
    match write_files(command, plan, desk) {
        Ok(()) => report(source, &plan.solution, desk),
        Err(which) => Status::WriteFault(which),
    }
}
