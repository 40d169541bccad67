//! Literals. A literal is kept as the signed number that the field writes for it: the variable, or the
//! variable below 0 for its negation.
ghost use Rattle.std.specs.Prelude.{◌≡◌, ◌<◌, ◌≤◌, ◌^◌, ◌↔◌, true, false, IsTrue, length, ℤ, IfSome, IsSome};

use std::marker::Model;
use std::ops::Not;

/// A variable, numbered from 1 to 2,147,483,647, or its negation. Contracts see its variable and whether
/// it is positive.
#[derive(Clone, Copy, PartialEq, Eq)]
pub struct Lit {
    number: i32,
}

impl Model for Lit {
    ghost use Rattle.bx_cnf.specs.Literals.{Literal, IsLiteral, literal_of, number_of, number_of-literal_of};

    ghost Value = { Literal };

    ghost view = { λ lit. literal_of lit.number };

    ghost invariant = { λ lit. IsLiteral (literal_of lit.number) };

    ghost inverse = { λ l. record { number = number_of l } };

    ghost use Rattle.std.proofs.Common.{ap};

    ghost inverse_ok = { λ l _. ap (λ z. record { number = z }) (number_of-literal_of l.number) };
}

impl Lit {
    ghost use Rattle.bx_cnf.specs.Literals.{IsLiteral, IsLiteralTrue, literal_of, number_of};

    /// The variable itself.
    pub fn positive(var: u32) -> Self
        requires above { 0 < var }
        requires below { var < 2 ^ 31 }
        ensures { result ≡ record { var = var; positive = true } }
    {
        Lit { number: var as i32 }
    }

    /// The negation of the variable.
    pub fn negative(var: u32) -> Self
        requires above { 0 < var }
        requires below { var < 2 ^ 31 }
        ensures { result ≡ record { var = var; positive = false } }
    {
        Lit {
            number: -(var as i32),
        }
    }

    /// The literal of a signed number; none for 0 and -2,147,483,648.
    pub fn from_number(number: i32) -> Option<Self>
        ensures some { IsSome result ↔ IsLiteral (literal_of number) }
        ensures value { IfSome result (λ lit. lit ≡ literal_of number) }
    {
        if number != 0 && number > i32::MIN {
            Some(Lit { number })
        } else {
            None
        }
    }

    /// The signed number: the variable, or the variable below 0 for its negation.
    pub fn number(self) -> i32
        ensures { result ≡ number_of self }
    {
        self.number
    }

    /// The variable.
    pub fn var(self) -> u32
        ensures var { result ≡ self.var }
        ensures formed { IsLiteral self }
    {
        self.number.unsigned_abs()
    }

    /// Whether it is the variable itself, and not its negation.
    pub fn is_positive(self) -> bool
        ensures { result ≡ self.positive }
    {
        self.number > 0
    }

    /// Whether it is true under bits, one for each variable.
    pub fn is_true(self, bits: &[bool]) -> bool
        requires { self.var ≤ length bits.now }
        ensures { IsTrue result ↔ IsLiteralTrue bits.now self }
    {
        bits[self.var() as usize - 1] == self.is_positive()
    }
}

impl Not for Lit {
    ghost use Rattle.bx_cnf.specs.Literals.{negated};

    type Output = Lit;

    ghost not_gives = { λ l r. r ≡ negated l };

    fn not(self) -> Lit {
        Lit {
            number: -self.number,
        }
    }
}
