//! Laws of the definitions that the contracts cite. Nothing here runs.
ghost use Rattle.std.specs.Prelude.{◌≡◌, ◌<◌, ◌≤◌, ◌^◌, ◌↔◌, ◌⊎◌, ℕ, List, [], ◌∷◌, map, Contains, codes, length, Some, None};
ghost use Rattle.bx_logic.specs.declared.op.Op.TheVariants.{Buf, Not, And, Or, Nand, Nor, Xor, Xnor};
ghost use Rattle.bx_syntax.specs.declared.terminal.Mark.TheVariants.{Module, EndModule, Input, Output, Wire, Assign, Open, Close, Comma, Semicolon, Equals, Tilde, Ampersand, Caret, TildeCaret, Bar};
ghost use Rattle.bx_syntax.specs.declared.terminal.Terminal.{Terminal};
ghost use Rattle.bx_syntax.specs.declared.terminal.Terminal.TheVariants.{Fixed, GateWord, Name, Reserved, Symbol};
ghost use Rattle.bx_syntax.specs.Words.{refused_words, reserved_words, IsWord};
ghost use Rattle.bx_syntax.specs.Parts.{ModuleTree};
ghost use Rattle.bx_syntax.specs.Sizes.{module_size};
ghost use Rattle.bx_syntax.specs.Grammar.{IsModule};
ghost use Rattle.bx_syntax.specs.declared.fault.ReadFault.{ReadFault};
ghost use Rattle.bx_lex.specs.Tokens.{TokenList};
ghost use Rattle.bx_syntax.specs.Terminals.{one_symbol, symbol_terminal};
ghost use Rattle.bx_syntax.specs.Faults.{symbol_construct, Stops, IsTreeOf, HasReadFault};
ghost use Rattle.bx_syntax.specs.declared.fault.Construct.TheVariants.{Vector, Ternary, Delay, Concat, Operator, Directive};
ghost use Rattle.bx_syntax.specs.Texts.{IsTree};

/// A list of terminals has at most one tree, however deep it may nest.
pub fn one_tree()
    ensures { (a b : ℕ) (m n : ModuleTree) (ts : List Terminal) →
        IsModule a m ts → IsModule b n ts → m ≡ n }
{}

/// Each word that the grammar uses is its own terminal.
#[tactic(auto, unfolding(crate::specs::Words::word_terminal))]
pub fn what_used_words_are()
    ensures first { IsWord (codes "module") (Fixed Module) }
    ensures last { IsWord (codes "endmodule") (Fixed EndModule) }
    ensures ports { IsWord (codes "input") (Fixed Input) × IsWord (codes "output") (Fixed Output) }
    ensures wires { IsWord (codes "wire") (Fixed Wire) × IsWord (codes "assign") (Fixed Assign) }
    ensures ands { IsWord (codes "and") (GateWord And) × IsWord (codes "nand") (GateWord Nand) }
    ensures ors { IsWord (codes "or") (GateWord Or) × IsWord (codes "nor") (GateWord Nor) }
    ensures xors { IsWord (codes "xor") (GateWord Xor) × IsWord (codes "xnor") (GateWord Xnor) }
    ensures copies { IsWord (codes "buf") (GateWord Buf) × IsWord (codes "not") (GateWord Not) }
{}

/// What the symbols are to the grammar, and which stand for a construct that isn't taken.
pub fn what_symbols_are()
    ensures marks { map one_symbol (codes "(),;=") ≡
        Some Open ∷ Some Close ∷ Some Comma ∷ Some Semicolon ∷ Some Equals ∷ [] }
    ensures signs { map one_symbol (codes "~&^|") ≡
        Some Tilde ∷ Some Ampersand ∷ Some Caret ∷ Some Bar ∷ [] }
    ensures xnor { symbol_terminal (codes "~^") ≡ Fixed TildeCaret }
    ensures nxor { symbol_terminal (codes "^~") ≡ Fixed TildeCaret }
    ensures constructs { map symbol_construct (codes "[?#{`") ≡
        Some Vector ∷ Some Ternary ∷ Some Delay ∷ Some Concat ∷ Some Directive ∷ [] }
    ensures operators { map symbol_construct (codes "+-*/") ≡
        Some Operator ∷ Some Operator ∷ Some Operator ∷ Some Operator ∷ [] }
    ensures further { map symbol_construct (codes "%<>!") ≡
        Some Operator ∷ Some Operator ∷ Some Operator ∷ Some Operator ∷ [] }
    ensures others { (symbol_terminal (codes "@") ≡ Symbol 64) × (symbol_construct 64 ≡ None) }
{}

/// A word that is refused is none of the grammar's, and so no name. A word is a name exactly where it is
/// neither used nor refused, and then the name of these very bytes.
pub fn which_words_are_names()
    ensures refused { (word : List ℕ) → Contains refused_words word → IsWord word Reserved }
    ensures names { (word : List ℕ) → IsWord word (Name word) ↔ ¬ (Contains reserved_words word) }
    ensures same { (word name : List ℕ) → IsWord word (Name name) → word ≡ name }
{}

/// A module has no more names, operators and bits than its text has terminals.
pub fn a_module_is_no_larger_than_its_text()
    ensures { (limit : ℕ) (m : ModuleTree) (ts : List Terminal) →
        IsModule limit m ts → module_size m ≤ length ts }
{}

/// A module that is the tree of some text has fewer than 2 ^ 32 names, operators and bits.
pub fn a_module_is_small()
    ensures { (m : ModuleTree) → IsTree m → module_size m < 2 ^ 32 }
{}

/// Tokens have a tree or a fault, never both, and one fault.
pub fn tokens_have_a_tree_or_a_fault()
    ensures some { (text : List ℕ) (found : TokenList) →
        ((m : ModuleTree) × IsTreeOf text found m) ⊎ ((f : ReadFault) × HasReadFault text found f) }
    ensures either { (text : List ℕ) (found : TokenList) (m : ModuleTree) (f : ReadFault) →
        HasReadFault text found f → IsTreeOf text found m → ⊥ }
    ensures one { (text : List ℕ) (found : TokenList) (f g : ReadFault) →
        HasReadFault text found f → HasReadFault text found g → f ≡ g }
{}

/// The first bad place of a list of terminals is one.
pub fn terminals_stop_at_one_place()
    ensures { (limit : ℕ) (ts : List Terminal) (j k : ℕ) →
        Stops limit ts j → Stops limit ts k → j ≡ k }
{}
