//! Laws about the definitions alone, each the clause of a function with an empty body. Nothing here runs.
ghost use Rattle.std.specs.Prelude.{ℕ, ◌<◌, List};
ghost use Rattle.std.specs.List.{AllByRecursion};
ghost use Rattle.bx_draw.specs.Escapes.{escaped, IsHarmless};

/// Whatever bytes a name has, escaped it opens no tag, closes none, ends no quoted value, and is printable.
pub fn an_escaped_name_is_harmless()
    ensures { (bytes : List ℕ) → AllByRecursion (λ byte. byte < 256) bytes
        → AllByRecursion IsHarmless (escaped bytes) }
{}
