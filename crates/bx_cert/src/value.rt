//! A certificate as a value, which keeps what each certificate keeps.
ghost use Rattle.std.specs.Prelude.{◌≡◌};
ghost use Rattle.bx_cert.specs.Certs.{IsCert};

use crate::{CertLast, Sections};
use bx_grid::Limits;
use std::marker::Model;

/// The limits and the budget of a search, a section for each ratio that was refuted, and how it ended.
/// Contracts see the record of these four.
#[derive(Drop)]
pub struct Cert {
    limits: Limits,
    budget: u64,
    sections: Sections,
    last: CertLast,
}

impl Model for Cert {
    ghost use Rattle.bx_cert.specs.Certs.{Certificate, IsCert};

    ghost Value = { Certificate };

    ghost view = { λ c. record { limits = c.limits; budget = c.budget; sections = c.sections; last = c.last } };

    ghost invariant = { λ c. IsCert (record { limits = c.limits; budget = c.budget; sections = c.sections; last = c.last }) };
}

impl Cert {
    /// The certificate of these parts. Takes no memory.
    pub fn new(limits: Limits, budget: u64, sections: Sections, last: CertLast) -> Self
        requires { IsCert (record { limits = limits; budget = budget; sections = sections; last = last }) }
        ensures { result ≡ record { limits = limits; budget = budget; sections = sections; last = last } }
    {
        Cert {
            limits,
            budget,
            sections,
            last,
        }
    }

    /// The limits within which ratios were tried.
    pub fn limits(&self) -> Limits
        ensures limits { result ≡ self.now.limits }
        ensures kept { IsCert self.now }
    {
        self.limits
    }

    /// The budget of each ratio.
    pub fn budget(&self) -> u64
        ensures budget { result ≡ self.now.budget }
        ensures kept { IsCert self.now }
    {
        self.budget
    }

    /// The sections, in the order in which the ratios were tried.
    pub fn sections(&self) -> &Sections
        ensures sections { result.now ≡ self.now.sections }
        ensures kept { IsCert self.now }
    {
        &self.sections
    }

    /// How the search ended.
    pub fn last(&self) -> &CertLast
        ensures last { result.now ≡ self.now.last }
        ensures kept { IsCert self.now }
    {
        &self.last
    }
}
