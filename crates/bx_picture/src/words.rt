//! The words of a command line: `LIB DESIGN [--cert CERT --net NET] [--dots]`, the options in any order, each once.

// How many options there are.
const OPTIONS: usize = 3;

/// What is to be drawn.
#[derive(Clone, Copy)]
pub(crate) struct DrawCommand<'a> {
    /// The file of the library.
    pub(crate) lib: &'a str,
    /// The file of the design.
    pub(crate) design: &'a str,
    /// The file of the certificate, and that of the module.
    pub(crate) cert: Option<&'a str>,
    pub(crate) net: Option<&'a str>,
    /// Whether the dots are drawn too.
    pub(crate) dots: bool,
}

/// What the words ask for, if they ask for a picture. A certificate is named where a module is, and only there.
pub(crate) fn command_of(words: &[String]) -> Option<DrawCommand<'_>> {
    let [lib, design, options @ ..] = words else {
        return None;
    };
    let command = DrawCommand {
        lib: lib.as_str(),
        design: design.as_str(),
        cert: None,
        net: None,
        dots: false,
    };
    let command = with_options(command, options)?;
    if command.cert.is_some() == command.net.is_some() {
        Some(command)
    } else {
        None
    }
}

// The command with the options that these words say.
fn with_options<'a>(command: DrawCommand<'a>, words: &'a [String]) -> Option<DrawCommand<'a>> {
    let mut command = command;
    let mut rest = words;
    for _ in 0..=OPTIONS {
        match rest {
            [] => return Some(command),
            [dots, further @ ..] if dots.as_str() == "--dots" && !command.dots => {
                command.dots = true;
                rest = further;
            }
            [option, file, further @ ..] => {
                command = with_file(command, option.as_str(), file.as_str())?;
                rest = further;
            }
            _ => return None,
        }
    }
    None
}

// The command with the file that an option names.
fn with_file<'a>(command: DrawCommand<'a>, option: &str, file: &'a str) -> Option<DrawCommand<'a>> {
    match option {
        "--cert" if command.cert.is_none() => Some(DrawCommand {
            cert: Some(file),
            ..command
        }),
        "--net" if command.net.is_none() => Some(DrawCommand {
            net: Some(file),
            ..command
        }),
        _ => None,
    }
}
