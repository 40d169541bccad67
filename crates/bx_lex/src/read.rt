//! The reader: it cuts a text into lexemes, one after the other, and keeps those that are tokens.
ghost use Rattle.std.specs.Prelude.{◌≡◌, ◌≢◌, ◌++◌, length, Err, IfOk, IfErr, OnOk};
ghost use Rattle.bx_lex.specs.Tokens.{Reading, HasTokens, HasFault, Reads, token_at, token_list};

use crate::rules;
use crate::token::{LexFault, Token, TokenKind};
use crate::tokens::Tokens;
use std::alloc::Global;

/// The tokens of a text, or its first fault.
///
/// # Errors
///
/// The first fault of the text, with its place, or `NoMemory`.
pub fn read_tokens(alloc: Global, text: &[u8]) -> Result<Tokens, LexFault>
    // The tokens that are answered are those of the text.
    ensures found { IfOk result (λ tokens. HasTokens text.now tokens) }
    // The fault that is answered is the first of the text.
    ensures faults { IfErr result (λ fault. fault ≢ LexFault.NoMemory → HasFault text.now fault) }
    // What the text reads as is answered, unless memory runs out.
    ensures exact { (r : Reading) → Reads text.now r → result ≢ Err LexFault.NoMemory → result ≡ r }
    // The end is the length of the text.
    ensures whole { IfOk result (λ tokens. tokens.end ≡ length text.now) }
{
    let tokens = cut(alloc, text)?;
    Ok(Tokens::new(tokens, text.len() as u64))
}

// Cuts the text into lexemes, from its first byte to its last, and keeps those that are tokens.
fn cut(alloc: Global, text: &[u8]) -> Result<Vec<Token>, LexFault>
    ensures found { IfOk result (λ ts. HasTokens text.now (token_list ts.items (length text.now))) }
    ensures faults { IfErr result (λ fault. fault ≢ LexFault.NoMemory → HasFault text.now fault) }
{
    let mut tokens = Vec::new(alloc);
    let mut place: u64 = 0;
    let mut rest = text;
    while !rest.is_empty() {
        let lexeme = rules::front_of(place, rest)?;
        let end = place + lexeme.len as u64;
        put(&mut tokens, place, end, lexeme.kind)?;
        place = end;
        rest = &rest[lexeme.len..];
    }
    Ok(tokens)
}

// Puts the token that stands from `start` to `end` behind the others, if there is one.
fn put(
    tokens: &mut Vec<Token>,
    start: u64,
    end: u64,
    kind: Option<TokenKind>,
) -> Result<(), LexFault>
    ensures put { OnOk result (tokens.new.items ≡ tokens.old.items ++ token_at start end kind) }
    ensures failed { IfErr result (λ fault. fault ≡ LexFault.NoMemory) }
{
    if let Some(kind) = kind {
        tokens
            .push(Token { start, end, kind })
            .map_err(|_| LexFault::NoMemory)?;
    }
    Ok(())
}
