//! Laws about the core of a race alone, each the clause of a function with an empty body. Nothing here
//! runs.
ghost use Rattle.std.specs.Prelude.{◌≡◌, ℕ, ◌≤◌, List, [], ◌∷◌, Bool, true, false, None};
ghost use Rattle.bx_race.specs.Core.{Event, Claim, Offer, Look, run, AllEnded, Settles};

/// For any table of which indices are refuted, at least one worker and any events: once all workers have
/// ended, each index below the least is refuted and done, by one worker and once; the least is the number
/// of indices or was offered; and an offered one that isn't refuted is the first such.
pub fn a_race_finds_the_first_unrefuted()
    ensures { (table : List Bool) (workers : ℕ) (events : List Event) → 1 ≤ workers
        → AllEnded (run table workers events) → Settles table (run table workers events) }
{}

/// A worker claims the first of three indices, the only refuted one. Another claims the second and offers
/// it. The first worker looks and goes on, claims the third, looks and drops it. A further claim of it, and
/// one of a third worker that isn't there, change nothing.
pub fn a_race_of_two_workers()
    ensures { run (true ∷ false ∷ false ∷ []) 2
        (Claim 0 ∷ Claim 1 ∷ Offer 1 ∷ Look 0 ∷ Claim 0 ∷ Look 0 ∷ Claim 0 ∷ Claim 2 ∷ [])
        ≡ record {
          next = 3;
          least = 1;
          workers = record { current = None; done = 0 ∷ []; offered = []; dropped = 2 ∷ []; past = 0 }
              ∷ record { current = None; done = []; offered = 1 ∷ []; dropped = []; past = 0 }
              ∷ [];
        } }
{}
