//! The reader of modules: the tree of a text's tokens, or why there is none. What is answered, and where,
//! is what the grammar says of the tokens, whatever way it is read.
ghost use Rattle.std.specs.Prelude.{◌≡◌, ◌≢◌, ◌+◌, ◌<◌, ◌≤◌, ◌^◌, ℕ, length, slice_get, IfSome, IfOk, IfErr, MatchResult, Err};
ghost use Rattle.bx_lex.specs.Tokens.{HasTokens};
ghost use Rattle.bx_syntax.specs.Parts.{ModuleTree};
ghost use Rattle.bx_syntax.specs.Terminals.{terminals_of};
ghost use Rattle.bx_syntax.specs.ReadsModules.{StopsBy};
ghost use Rattle.bx_syntax.specs.Constructs.{construct_behind, fault_with};
ghost use Rattle.bx_syntax.specs.Faults.{place_of, IsTreeOf, HasReadFault};
ghost use Rattle.bx_syntax.specs.declared.fault.ReadFault.{ReadFault as Fault};

use crate::construct::construct;
use crate::fault::{Construct, ReadFault};
use crate::module::module;
use crate::stop::{Stop, Wanted};
use crate::terminals::terminals;
use crate::tree::Module;
use bx_lex::{Token, Tokens, laws};
use std::alloc::Global;

/// The tree of the module whose tokens these are.
///
/// # Errors
///
/// The first bad token, or the first `~` or `(` that nests too deep before it, or `NoMemory`.
pub fn read_module(alloc: Global, text: &[u8], tokens: &Tokens) -> Result<Module, ReadFault>
    requires of_text { HasTokens text.now tokens.now }
    requires short { length text.now < 2 ^ 32 }
    // What is answered is the tree of the tokens, in which nothing nests deeper than 256.
    ensures found { IfOk result (IsTreeOf text.now tokens.now) }
    // Where the tokens have such a tree it is answered, unless memory runs out.
    ensures only { (m : ModuleTree) → IsTreeOf text.now tokens.now m →
        MatchResult result (λ x. x ≡ m) (λ e. e ≡ ReadFault.NoMemory) }
    // The fault that is answered is that of the tokens: what the first bad one is, and its place.
    ensures faults { IfErr result
        (λ f. f ≢ ReadFault.NoMemory → HasReadFault text.now tokens.now f) }
    // Where the tokens have such a fault it is answered, unless memory runs out.
    ensures exact { (f : Fault) → HasReadFault text.now tokens.now f →
        result ≢ Err ReadFault.NoMemory → result ≡ Err f }
{
    laws::tokens_stand_in_order();
    match tree_of(alloc, text, tokens) {
        Ok(module) => Ok(module),
        Err(stop) => Err(fault_of(text, tokens, stop)),
    }
}

// The tree of a text's tokens, or where reading them stops.
fn tree_of(alloc: Global, text: &[u8], tokens: &Tokens) -> Result<Module, Stop>
    requires whole { tokens.now.end ≡ length text.now }
    requires few { length tokens.now.tokens < 2 ^ 32 }
    ensures found { IfOk result (IsTreeOf text.now tokens.now) }
    ensures only { (m : ModuleTree) → IsTreeOf text.now tokens.now m →
        MatchResult result (λ x. x ≡ m) (λ e. e ≡ Stop.NoMemory) }
    ensures stops { IfErr result (λ e. e ≢ Stop.NoMemory → StopsBy text.now tokens.now e) }
{
    let mut terminals = terminals(alloc, text, tokens)?;
    module(alloc, &mut terminals)
}

// The fault of a text whose reader stops so. It takes no memory, so that want of memory is told only
// where a reader was refused some.
fn fault_of(text: &[u8], tokens: &Tokens, stop: Stop) -> ReadFault
    requires whole { tokens.now.end ≡ length text.now }
    requires stops { stop ≢ Stop.NoMemory → StopsBy text.now tokens.now stop }
    ensures memory { stop ≡ Stop.NoMemory → result ≡ ReadFault.NoMemory }
    ensures fault { stop ≢ Stop.NoMemory → HasReadFault text.now tokens.now result }
{
    match stop {
        Stop::NoMemory => ReadFault::NoMemory,
        Stop::Bad(left, wanted) => {
            fault_with(
                place(tokens, left),
                construct_at(text, tokens, left, wanted),
            )
        },
        Stop::Deep(left) => ReadFault::TooDeep(place(tokens, left)),
    }
}

// The fault at a place where a terminal stands of this construct, if it is of one.
fn fault_with(place: u64, construct: Option<Construct>) -> ReadFault
    ensures { result ≡ fault_with place construct }
{
    match construct {
        Some(construct) => ReadFault::NotTaken(place, construct),
        None => ReadFault::Syntax(place),
    }
}

// The construct of the token before which so many are left, where something else was wanted.
fn construct_at(text: &[u8], tokens: &Tokens, left: usize, wanted: Wanted) -> Option<Construct>
    requires { tokens.now.end ≡ length text.now }
    ensures { (k : ℕ) → left + k ≡ length tokens.now.tokens →
        result ≡ construct_behind wanted (slice_get (terminals_of text.now tokens.now.tokens) k) }
{
    let Some(token) = token_at(tokens, left) else {
        return None;
    };
    construct(text, token, wanted)
}

// The place of the token before which so many are left, or the end of the text.
fn place(tokens: &Tokens, left: usize) -> u64
    ensures { (k : ℕ) → left + k ≡ length tokens.now.tokens → result ≡ place_of tokens.now k }
{
    match token_at(tokens, left) {
        Some(token) => token.start,
        None => tokens.end(),
    }
}

// The token before which so many tokens are left, if there are so many and one at all.
fn token_at(tokens: &Tokens, left: usize) -> Option<Token>
    ensures token { (k : ℕ) → left + k ≡ length tokens.now.tokens →
        result ≡ slice_get tokens.now.tokens k }
    ensures inside { IfSome result (λ t. (t.start < t.end) × (t.end ≤ tokens.now.end)) }
{
    let k = tokens.len().checked_sub(left as u64)?;
    (k < tokens.len()).then(|| tokens.token(k))
}
