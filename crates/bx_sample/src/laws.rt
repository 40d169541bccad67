//! Laws about the definitions alone, each the clause of a function with an empty body. Nothing here
//! runs.
ghost use Rattle.std.specs.Prelude.{◌≡◌, ◌+◌, ◌<◌, ◌==◌, ◌^◌, ◌∷◌, [], ℕ, List, Some, Contains, length, if◌then◌else◌, codes};
ghost use Rattle.bx_logic.specs.declared.op.Op.TheVariants.{Nor};
ghost use Rattle.bx_lines.specs.Lines.{IsLine};
ghost use Rattle.bx_sample.specs.Gates.{gate_of};
ghost use Rattle.bx_sample.specs.Samples.{sample_lines};
ghost use Rattle.bx_sample.specs.Library.{form_text};

/// A gate reads signals that come before it, so that no gate depends on itself.
pub fn gates_read_signals_before_them()
    ensures first { (number k : ℕ) → (gate_of number k).first < 4 + k }
    ensures second { (number k signal : ℕ) → (gate_of number k).second ≡ Some signal →
        signal < 4 + k }
{}

/// A sample has a line for each gate, five more, and a sixth for a second output.
pub fn a_sample_has_a_line_for_each_gate()
    ensures { (number gates extra : ℕ) → length (sample_lines number gates extra) ≡
        gates + extra + (if gates == 1 then 5 else 6) }
{}

/// The lines of a sample have no line feed in them.
pub fn the_lines_of_a_sample_are_lines()
    ensures { (number gates extra : ℕ) (line : List ℕ) → gates < 2 ^ 32 → extra < 2 ^ 32 →
        Contains (sample_lines number gates extra) line → IsLine line }
{}

/// What 1 draws, and the whole of its least sample.
pub fn the_least_sample_of_one()
    ensures gate { gate_of 1 0 ≡ record { operation = Nor; first = 2; second = Some 1 } }
    ensures lines { sample_lines 1 1 0 ≡
        codes "module sample(i0, i1, i2, i3, o0);"
        ∷ codes "input i0, i1, i2, i3;"
        ∷ codes "output o0;"
        ∷ codes "nor (g0, i2, i1);"
        ∷ codes "assign o0 = g0;"
        ∷ codes "endmodule"
        ∷ [] }
{}

/// The first form of the sample library, and the last one.
pub fn forms_of_the_sample_library()
    ensures first { form_text 0 ≡
        codes "\"input_l\":[[1,1,0],[1,3,0],[2,3,0],[3,3,0],[4,3,0],[5,3,0]]" }
    ensures last { form_text 27 ≡
        codes ",\"cross\":[[1,1,0],[1,3,1],[2,3,1],[3,3,0],[4,3,1],[5,3,1]]" }
{}
