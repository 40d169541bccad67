//! Laws about the definitions alone, each the clause of a function with an empty body. Nothing here
//! runs.
ghost use Rattle.std.specs.Prelude.{◌≡◌, ◌≢◌, ℕ, List, ◌∷◌, [], Contains, filter, ◌==◌, not};
ghost use Rattle.bx_queue.specs.Queue.{moved_to_front};

/// Who moves to the front is first, and the others keep their order.
pub fn the_others_keep_their_order()
    ensures { (v : ℕ) (order : List ℕ)
        → filter (λ x. not (x == v)) (moved_to_front v order) ≡ filter (λ x. not (x == v)) order }
{}
