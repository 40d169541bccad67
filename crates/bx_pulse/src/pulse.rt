//! What a search asks as it goes, and what it may rely on: each ask counts, and each answer by no.
ghost use Rattle.std.specs.Prelude.{◌≡◌, ℕ, ◌+◌, false, IsTrue};

/// What is asked whether work is still wanted. It counts what it was asked, and what it answered by no.
pub trait Pulse {
    /// How often it was asked.
    ghost asked: { Self → ℕ };

    /// How often the answer was no.
    ghost stops: { Self → ℕ };

    /// That it may be asked.
    ghost ready: { Self → Type 0 };

    /// How an earlier state and a later one are related.
    ghost leads: { Self → Self → Type 0 };

    /// Whether work is still wanted.
    fn wanted(&mut self) -> bool
        requires { ready self.old }
        ensures counted { asked self.new ≡ asked self.old + 1 }
        ensures goes_on { IsTrue result → stops self.new ≡ stops self.old }
        ensures stopped { result ≡ false → stops self.new ≡ stops self.old + 1 }
        ensures still_ready { IsTrue result → ready self.new }
        ensures led { leads self.old self.new };

    /// Each state leads to itself.
    ghost leads_to_itself: { (p : Self) → leads p p };

    /// What leads on leads from the first state to the last.
    ghost leads_on: { (p q r : Self) → leads p q → leads q r → leads p r };
}
