//! Laws about the definitions: a text reads in one way, its tokens stand in order and each by the
//! first rule, and the first close ends a comment. Nothing here runs.
ghost use Rattle.std.specs.Prelude.{◌≡◌, ◌<◌, ◌↔◌, ℕ, List, length, Ok, Err, All};
ghost use Rattle.bx_lex.specs.declared.token.LexFault.{LexFault};
ghost use Rattle.bx_lex.specs.declared.rules.Lexeme.{Lexeme};
ghost use Rattle.bx_lex.specs.Rules.{front, through, IsFirstClose};
ghost use Rattle.bx_lex.specs.Kinds.{IsOneIn, IsOfKind, IsFaultAt};
ghost use Rattle.bx_lex.specs.Tokens.{TokenList, Reading, HasTokens, HasFault, Reads, AreInOrder, IsTaken};

/// A text has tokens or a fault, never both, and one list of tokens or one fault.
pub fn a_text_has_one_reading()
    ensures some { (text : List ℕ) → (r : Reading) × Reads text r }
    ensures one { (text : List ℕ) (r s : Reading) → Reads text r → Reads text s → r ≡ s }
{}

/// Want of memory is no fault of a text.
pub fn want_of_memory_is_no_fault()
    ensures { (text : List ℕ) → HasFault text LexFault.NoMemory → ⊥ }
{}

/// The tokens of a text stand in order inside it, and none is empty.
pub fn tokens_stand_in_order()
    ensures spans { (text : List ℕ) (found : TokenList) → HasTokens text found → AreInOrder found }
    ensures whole { (text : List ℕ) (found : TokenList) →
        HasTokens text found → found.end ≡ length text }
{}

/// Each token is what the first rule that fits takes where the token stands.
pub fn a_token_is_taken_by_the_first_rule()
    ensures { (text : List ℕ) (found : TokenList) →
        HasTokens text found → All (IsTaken text) found.tokens }
{}

/// A word and an escaped word are runs that can't be longer, and each other token is one of its kind.
pub fn a_token_is_one_of_its_kind()
    ensures { (text : List ℕ) (found : TokenList) →
        HasTokens text found → All (IsOneIn text) found.tokens }
{}

/// What the first rule that fits takes is what its kind says and nothing else is, so that the order of
/// the rules doesn't matter. Where no rule takes anything, the fault is what it says, at this very place,
/// and no other fault is.
pub fn a_lexeme_is_what_its_kind_says()
    ensures taken { (place : ℕ) (text : List ℕ) (p : Lexeme) →
        (front place text ≡ Ok p) ↔ IsOfKind p.kind text p.len }
    ensures refused { (place : ℕ) (text : List ℕ) (fault : LexFault) →
        (front place text ≡ Err fault) ↔ IsFaultAt place text fault }
{}

/// A comment or an attribute ends behind the first close, and is open where there is none.
pub fn the_first_close_ends_a_comment()
    ensures { (close text : List ℕ) → 0 < length close →
        IsFirstClose close text (through close text) }
{}
