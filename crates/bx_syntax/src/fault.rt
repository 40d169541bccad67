//! Why a text is refused as a module. Which reason a text has is for the definitions to say, and for the
//! reader to answer.

/// A construct of the language that the profile doesn't take.
#[derive(Clone, Copy, Debug)]
pub enum Construct {
    Vector,
    Ternary,
    Delay,
    Concat,
    Operator,
    Directive,
    Instance,
    Second,
    Number,
    Reserved,
}

/// Why a list of tokens is refused as a module. A place is counted in bytes from 0; the end of the
/// text is the text's length.
#[derive(Clone, Copy, Debug)]
pub enum ReadFault {
    /// The token at this place may not stand there.
    Syntax(u64),
    /// The token at this place is of a construct that isn't taken.
    NotTaken(u64, Construct),
    /// The `~` or `(` at this place nests too deep.
    TooDeep(u64),
    /// Memory was refused.
    NoMemory,
}
