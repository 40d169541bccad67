//! The tokens of a text as a value. That they stand in order inside the text, none of them empty, is
//! kept in the type. Which text they are the tokens of is for the reader's contract to say.
ghost use Rattle.std.specs.Prelude.{◌≡◌, ◌<◌, ◌≤◌, length, Some, slice_get};

use crate::token::Token;
use std::marker::Model;

/// The tokens of a text, in order. Contracts see the list of them and the length of the text.
#[derive(Drop)]
pub struct Tokens {
    tokens: Vec<Token>,
    end: u64,
}

impl Model for Tokens {
    ghost use Rattle.bx_lex.specs.Tokens.{TokenList, AreSpans};

    ghost Value = { TokenList };

    ghost view = { λ t. record { tokens = t.tokens.items; end = t.end } };

    ghost invariant = { λ t. AreSpans 0 t.tokens.items t.end };
}

impl Tokens {
    ghost use Rattle.bx_lex.specs.Tokens.{AreSpans, token_list};

    // Tokens that stand in order in a text of this length.
    pub(crate) fn new(tokens: Vec<Token>, end: u64) -> Self
        requires { AreSpans 0 tokens.items end }
        ensures { result ≡ token_list tokens.items end }
    {
        Tokens { tokens, end }
    }

    /// How many tokens there are.
    pub fn len(&self) -> u64
        ensures { result ≡ length self.now.tokens }
    {
        self.tokens.len() as u64
    }

    /// Token k.
    pub fn token(&self, k: u64) -> Token
        requires { k < length self.now.tokens }
        ensures value { slice_get self.now.tokens k ≡ Some result }
        ensures inside { (result.start < result.end) × (result.end ≤ self.now.end) }
        ensures spans { AreSpans 0 self.now.tokens self.now.end }
    {
        self.tokens[k as usize]
    }

    /// The length of the text.
    pub fn end(&self) -> u64
        ensures { result ≡ self.now.end }
    {
        self.end
    }
}
