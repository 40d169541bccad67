//! Tests of `bx_words`: words and what is answered to them. The words of a line stand between single blanks, so
//! that two blanks have an empty word between them.

use crate::asserts::is_text_in;
use bx_words::{
    Command, DesignCommand, ExtractCommand, NoCommand, SampleCommand, VerifyCommand, WordFault,
    read_words,
};
use std::alloc::{AllocError, Global};
use std::test::Fail;

// Words with nothing wrong, and the names, limits, budget and number of workers that they give.
const TAKEN: &[(&str, &str)] = &[
    ("design n l d c", "n l d c 100 144 144 100000 4"),
    ("design n l d c --area 132", "n l d c 132 144 144 100000 4"),
    ("design n l d c --area 133", "n l d c 133 144 144 50000 4"),
    ("design n l d c --area 144", "n l d c 144 144 144 50000 4"),
    ("design n l d c --width 7", "n l d c 100 7 144 100000 4"),
    ("design n l d c --height 7", "n l d c 100 144 7 100000 4"),
    ("design n l d c --budget 0", "n l d c 100 144 144 0 4"),
    ("design n l d c --workers 1", "n l d c 100 144 144 100000 1"),
    (
        "design n l d c --workers 16",
        "n l d c 100 144 144 100000 16",
    ),
    (
        "design --area=5 n --width 6 l d --height=7 --workers 9 --budget 8 c",
        "n l d c 5 6 7 8 9",
    ),
    (
        "design n l d c --workers=9 --budget=8 --height=7 --width=6 --area=5",
        "n l d c 5 6 7 8 9",
    ),
    // Leading zeros are taken, up to ten digits.
    (
        "design n l d c --area 0000000100 --workers 04",
        "n l d c 100 144 144 100000 4",
    ),
    (
        "design n l d c --area 01 --width 001 --height 0000000144 --budget 00 --workers 0000000016",
        "n l d c 1 1 144 0 16",
    ),
    // The work is just not too much.
    (
        "design n l d c --area 1 --budget 67108864",
        "n l d c 1 144 144 67108864 4",
    ),
    (
        "design n l d c --area 2 --budget 22369621 --workers 16",
        "n l d c 2 144 144 22369621 16",
    ),
    (
        "design n l d c --area 144 --budget 89958",
        "n l d c 144 144 144 89958 4",
    ),
    (
        "design n l d c --area 144 --width 1 --budget 466033",
        "n l d c 144 1 144 466033 4",
    ),
    // `--` ends the options, and a second one is a name.
    ("design -- n l d c", "n l d c 100 144 144 100000 4"),
    ("design n l -- d c", "n l d c 100 144 144 100000 4"),
    ("design n l d c --", "n l d c 100 144 144 100000 4"),
    (
        "design --area 5 -- -n --width=6 d c",
        "-n --width=6 d c 5 144 144 100000 4",
    ),
    ("design -- -- l d c", "-- l d c 100 144 144 100000 4"),
    // A lone `-` and an empty word are names, and names are compared as they are written.
    ("design - l d c", "- l d c 100 144 144 100000 4"),
    ("design  l d c", " l d c 100 144 144 100000 4"),
    ("design n l d ", "n l d  100 144 144 100000 4"),
    ("design n ./n ././n N", "n ./n ././n N 100 144 144 100000 4"),
    (
        "design design area workers cert",
        "design area workers cert 100 144 144 100000 4",
    ),
    ("design 5 6 7 8", "5 6 7 8 100 144 144 100000 4"),
    // The two files that are read may be one.
    ("design n n d c", "n n d c 100 144 144 100000 4"),
    ("verify n l d c", "verify n l d c 4"),
    ("verify n l d c --workers 1", "verify n l d c 1"),
    (
        "verify --workers=0000000016 n l -- -d c",
        "verify n l -d c 16",
    ),
    ("extract l d", "extract l d"),
    ("extract -- -l --", "extract -l --"),
    // Files that no command writes may all be one.
    ("verify n n n n", "verify n n n n 4"),
    ("extract l l", "extract l l"),
    // The least and the most numbers of a sample, and leading zeros.
    ("sample 0 1 0", "sample 0 1 0"),
    ("sample 2147483647 32 10000", "sample 2147483647 32 10000"),
    ("sample 0000000003 02 -- 0000000001", "sample 3 2 1"),
];

// Words that no command is named by.
const COMMANDS: &[&str] = &[
    "",
    "draw n l d c",
    "Design n l d c",
    "designs n l d c",
    "extracts l d",
    "Verify n l d c",
    " design n l d c",
    "--help",
    "-- design n l d c",
];

// Words that their command doesn't take.
const USAGES: &[&str] = &[
    "design",
    "design n",
    "design n c",
    "design n l d",
    "design n l d c e",
    "design n l d c -- e",
    "design -- -- l d c e",
    // Options that there are not, and none are abbreviated.
    "design n l d c --halves 1",
    "design n l d c --ar 5",
    "design n l d c --worker 5",
    "design n l d c --Area 5",
    "design n l d c --areas 5",
    "design n l d c -area 5",
    "design n l d c -w 5",
    "design n l d c -5",
    "design n l d c --help",
    "design n l d c -h",
    "design --help",
    "design n l d c --version",
    "design n l d c -V",
    // An option without a text, or given twice.
    "design n l d c --workers",
    "design n l d c --area --width 5",
    "design n l d c --area -5",
    "design n l d c --workers -- 5",
    "design --area -- 5 n l d c",
    "design n l d c --area 5 --area 5",
    "design n l d c --workers=5 --workers=6",
    "design --budget x n l d c --budget 1",
    // Usage comes before what is wrong with numbers and names.
    "design n n n n n --area x",
    "design n l d --area 0",
    // The other commands have no such options, and other numbers of files.
    "verify n l d",
    "verify n l d c e",
    "verify n l d c --area 5",
    "verify n l d c --workers 5 --workers 5",
    "extract l",
    "extract l d c",
    "extract l d --workers 4",
    "sample 1 1",
    "sample 1 1 0 0",
    "sample 1 1 -1",
    "sample 1 1 0 --workers 4",
    "sample 1 1 0 --number 1",
    "sample x y",
    "verify --help",
];

// Words with a first fault behind their use, and the fault.
const FAULTS: &[(&str, &str)] = &[
    ("design n l d c --area x", "number area"),
    ("design n l d c --width x", "number width"),
    ("design n l d c --height x", "number height"),
    ("design n l d c --budget x", "number budget"),
    ("design n l d c --workers x", "number workers"),
    ("design n l d c --area=-5", "number area"),
    ("design n l d c --area=", "number area"),
    ("design n l d c --area ", "number area"),
    ("design n l d c --workers -", "number workers"),
    ("design n l d c --area +5", "number area"),
    ("design n l d c --area 1e1", "number area"),
    ("design n l d c --area 5.0", "number area"),
    ("design n l d c --area 0x5", "number area"),
    ("design n l d c --area=5=5", "number area"),
    ("design n l d c --area ٥", "number area"),
    ("design n l d c --area 00000000100", "number area"),
    ("design n l d c --budget 10000000000", "number budget"),
    // The first in the order of the options, and every number before any range.
    (
        "design n l d c --workers w --budget x --height y --width z",
        "number width",
    ),
    ("design n l d c --workers x --budget y", "number budget"),
    ("design n l d c --area 0 --workers x", "number workers"),
    (
        "design n l d c --budget 67108865 --height 0 --width 145",
        "range width",
    ),
    ("design n l d c --workers 17 --area 145", "range area"),
    (
        "design n l d c --workers 0 --budget 67108865",
        "range budget",
    ),
    ("design n l d c --area 0", "range area"),
    ("design n l d c --area 145", "range area"),
    ("design n l d c --area 4294967297", "range area"),
    ("design n l d c --area 9999999999", "range area"),
    ("design n l d c --width 0", "range width"),
    ("design n l d c --width 145", "range width"),
    ("design n l d c --height 0", "range height"),
    ("design n l d c --height 145", "range height"),
    ("design n l d c --budget 67108865", "range budget"),
    ("design n l d c --workers 0", "range workers"),
    ("design n l d c --workers 17", "range workers"),
    ("design n l d c --workers 4294967300", "range workers"),
    // A file that is written is another of the four.
    ("design n l n c", "same"),
    ("design n l d n", "same"),
    ("design n l l c", "same"),
    ("design n l d l", "same"),
    ("design n l d d", "same"),
    ("design n n n n", "same"),
    ("design n n d d", "same"),
    ("design -- n l -- --", "same"),
    ("design n l  ", "same"),
    ("design n l d d --area 0", "range area"),
    ("design n l d d --workers 17", "range workers"),
    ("design n l d d --area 144 --budget 100000", "same"),
    ("design n l d c --area 144 --budget 100000", "work 74600000"),
    (
        "design n n d c --area 144 --budget 100000 --workers 1",
        "work 74600000",
    ),
    ("design n l d c --area 2 --budget 22369622", "work 67108866"),
    ("design n l d c --area 144 --budget 89959", "work 67109414"),
    (
        "design n l d c --area 144 --width 1 --budget 466034",
        "work 67108896",
    ),
    ("verify n l d c --workers x", "number workers"),
    ("verify n l d c --workers 0", "range workers"),
    ("verify n l d c --workers 17", "range workers"),
    ("sample x y z", "number number"),
    ("sample 9999999999 +1 z", "number gates"),
    ("sample 9999999999 0 00000000001", "number extra"),
    ("sample 2147483648 0 10001", "range number"),
    ("sample 2147483647 0 10001", "range gates"),
    ("sample 2147483647 33 10001", "range gates"),
    ("sample 2147483647 32 10001", "range extra"),
    ("sample  1 0", "number number"),
    ("sample -- -1 1 0", "number number"),
    ("sample 1 1 -", "number extra"),
    ("sample 1 0 x", "number extra"),
];

#[test]
fn words_are_taken(rt: HostRuntime) -> Result<(), Fail> {
    for &(line, wanted) in TAKEN {
        let found = told(rt.alloc(), line)?;
        is_text_in(&rt, line, found.as_str(), wanted);
    }
    Ok(())
}

#[test]
fn words_that_name_no_command_are_refused(rt: HostRuntime) -> Result<(), Fail> {
    for line in COMMANDS {
        let found = told(rt.alloc(), *line)?;
        is_text_in(&rt, *line, found.as_str(), "command");
    }
    Ok(())
}

#[test]
fn words_that_are_not_taken_are_refused(rt: HostRuntime) -> Result<(), Fail> {
    for line in USAGES {
        let found = told(rt.alloc(), *line)?;
        is_text_in(&rt, *line, found.as_str(), "usage");
    }
    Ok(())
}

#[test]
fn the_first_fault_of_words_is_told(rt: HostRuntime) -> Result<(), Fail> {
    for &(line, wanted) in FAULTS {
        let found = told(rt.alloc(), line)?;
        is_text_in(&rt, line, found.as_str(), wanted);
    }
    Ok(())
}

#[test]
fn no_words_name_no_command(rt: HostRuntime) -> Result<(), Fail> {
    let found = answer_to(rt.alloc(), &[])?;
    is_text_in(&rt, "no words", found.as_str(), "command");
    Ok(())
}

// What is answered to the words of a line, as a text.
fn told(alloc: Global, line: &str) -> Result<String, AllocError> {
    let words = words_of(alloc, line)?;
    answer_to(alloc, words.as_slice())
}

fn answer_to(alloc: Global, words: &[String]) -> Result<String, AllocError> {
    match read_words(alloc, words) {
        Ok(command) => command_text(alloc, &command),
        Err(NoCommand::Fault(fault)) => fault_text(alloc, fault),
        Err(NoCommand::NoMemory) => String::from_str(alloc, "no memory"),
    }
}

fn words_of(alloc: Global, line: &str) -> Result<Vec<String>, AllocError> {
    let mut words = Vec::new(alloc);
    for word in line.split(' ') {
        words.push(String::from_str(alloc, word)?)?;
    }
    Ok(words)
}

fn command_text(alloc: Global, command: &Command<'_>) -> Result<String, AllocError> {
    match command {
        Command::Design(design) => design_text(alloc, design),
        Command::Verify(verify) => verify_text(alloc, verify),
        Command::Extract(extract) => extract_text(alloc, extract),
        Command::Sample(sample) => sample_text(alloc, sample),
    }
}

fn verify_text(alloc: Global, verify: &VerifyCommand<'_>) -> Result<String, AllocError> {
    let VerifyCommand {
        net,
        lib,
        design,
        cert,
        workers,
    } = *verify;
    format!(in alloc; "verify {net} {lib} {design} {cert} {workers}")
}

fn extract_text(alloc: Global, extract: &ExtractCommand<'_>) -> Result<String, AllocError> {
    let ExtractCommand { lib, design } = *extract;
    format!(in alloc; "extract {lib} {design}")
}

fn sample_text(alloc: Global, sample: &SampleCommand) -> Result<String, AllocError> {
    let SampleCommand {
        number,
        gates,
        extra,
    } = *sample;
    format!(in alloc; "sample {number} {gates} {extra}")
}

fn design_text(alloc: Global, design: &DesignCommand<'_>) -> Result<String, AllocError> {
    let DesignCommand {
        net,
        lib,
        design: dots,
        cert,
        limits,
        budget,
        workers,
    } = *design;
    format!(in alloc;
        "{net} {lib} {dots} {cert} {} {} {} {budget} {workers}",
        limits.area, limits.width, limits.height
    )
}

fn fault_text(alloc: Global, fault: WordFault) -> Result<String, AllocError> {
    match fault {
        WordFault::Command => String::from_str(alloc, "command"),
        WordFault::Usage => String::from_str(alloc, "usage"),
        WordFault::Number(option) => format!(in alloc; "number {}", option.name()),
        WordFault::Range(option) => format!(in alloc; "range {}", option.name()),
        WordFault::Same => String::from_str(alloc, "same"),
        WordFault::Work(work) => format!(in alloc; "work {work}"),
    }
}
