//! The classes of bytes that the rules speak of.
ghost use Rattle.std.specs.Prelude.{◌≡◌};
ghost use Rattle.bx_lex.specs.Bytes.{is_word_start, is_base, is_symbol, is_of};

// The bytes of punctuation that are symbols.
const SYMBOLS: [u8; 30] = *b"(),;=~&^|[]{}#@?:.+-*/%<>!'\"$`";

pub(crate) fn is_word_start(byte: u8) -> bool
    ensures { result ≡ is_word_start byte }
{
    byte.is_ascii_alphabetic() || byte == b'_'
}

pub(crate) fn is_base(byte: u8) -> bool
    ensures { result ≡ is_base byte }
{
    b"bBoOdDhH".contains(&byte)
}

#[tactic(auto, unfolding(crate::specs::Bytes::is_symbol))]
pub(crate) fn is_symbol(byte: u8) -> bool
    ensures { result ≡ is_symbol byte }
{
    SYMBOLS.contains(&byte)
}

// The classes of which a rule takes the longest run of bytes.
#[derive(Clone, Copy)]
pub(crate) enum Class {
    // All but a line feed.
    Line,
    // What a word goes on with.
    Word,
    // What stands in an escaped word.
    Shown,
    Digit,
    // What stands behind the letter of a base.
    Based,
}

impl Class {
    // Whether the byte is of the class.
    pub(crate) fn has(self, byte: u8) -> bool
        ensures { result ≡ is_of self byte }
    {
        match self {
            Class::Line => byte != b'\n',
            Class::Word => byte.is_ascii_alphanumeric() || byte == b'_' || byte == b'$',
            Class::Shown => 33 <= byte && byte <= 126,
            Class::Digit => byte.is_ascii_digit(),
            Class::Based => byte.is_ascii_alphanumeric() || byte == b'_',
        }
    }
}
