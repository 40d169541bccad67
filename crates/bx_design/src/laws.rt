//! Laws about the definitions alone, each the clause of a function with an empty body, so that a reader can trust
//! what the contract says. Nothing here runs.
ghost use Rattle.std.specs.Prelude.{◌≡◌, ◌↔◌, ◌<◌, ◌≤◌, ℕ, Option, length};
ghost use Rattle.bx_cert.specs.Certs.{Certificate, IsCert};
ghost use Rattle.bx_cert.specs.declared.parts.TheConstants.{MOST_CERT_BUDGET};
ghost use Rattle.bx_design.specs.Meaning.{IsMinimal};
ghost use Rattle.bx_design.specs.Permits.{AllowsEachForm};
ghost use Rattle.bx_design.specs.Solutions.{IsSolution};
ghost use Rattle.bx_design.specs.declared.solution.LaidOut.{LaidOut};
ghost use Rattle.bx_encode.specs.declared.numbers.TheConstants.{MOST_NODES};
ghost use Rattle.bx_forms.specs.declared.table.TheConstants.{FORMS};
ghost use Rattle.bx_grid.specs.Orders.{AreLimits};
ghost use Rattle.bx_grid.specs.declared.ratio.Limits.{Limits};
ghost use Rattle.bx_grid.specs.declared.ratio.Ratio.{Ratio};
ghost use Rattle.bx_layout.specs.Legal.{IsLegal, LacksLayout};
ghost use Rattle.bx_layout.specs.Permits.{PermitTest, all_forms};
ghost use Rattle.bx_layout.specs.declared.layout.Layout.{Layout};
ghost use Rattle.bx_network.specs.Networks.{Network, IsNetwork};

/// Network, permit, limits and budget have one solution.
pub fn a_network_has_one_solution()
    ensures { (N : Network) (permit : PermitTest) (limits : Limits) (budget : ℕ)
        (cert other : Certificate) (found last : Option LaidOut)
        → IsSolution N permit limits budget cert found
        → IsSolution N permit limits budget other last
        → (cert ≡ other) × (found ≡ last) }
{}

/// A network has a solution.
pub fn a_network_has_a_solution()
    ensures { (N : Network) (permit : PermitTest) (limits : Limits) (budget : ℕ)
        → IsNetwork N → length N.nodes ≤ MOST_NODES → AreLimits limits
        → (cert : Certificate) × (found : Option LaidOut)
        × IsSolution N permit limits budget cert found }
{}

/// The certificate of a solution refutes each ratio before the last, and what was found is worth what it should be.
pub fn a_solution_is_minimal()
    ensures { (N : Network) (permit : PermitTest) (limits : Limits) (budget : ℕ)
        (cert : Certificate) (found : Option LaidOut)
        → IsNetwork N → length N.nodes ≤ MOST_NODES → AreLimits limits
        → IsSolution N permit limits budget cert found
        → IsMinimal N permit limits budget cert found }
{}

/// The certificate of a solution keeps the ranges of its numbers, and so has a text.
pub fn a_solution_has_a_certificate()
    ensures { (N : Network) (permit : PermitTest) (limits : Limits) (budget : ℕ)
        (cert : Certificate) (found : Option LaidOut)
        → IsNetwork N → length N.nodes ≤ MOST_NODES → AreLimits limits → budget ≤ MOST_CERT_BUDGET
        → IsSolution N permit limits budget cert found → IsCert cert }
{}

/// Permits that allow the same of the forms give the same solutions.
pub fn permits_that_agree_give_one_solution()
    ensures { (N : Network) (permit other : PermitTest) (limits : Limits) (budget : ℕ)
        (cert : Certificate) (found : Option LaidOut)
        → ((r : Ratio) (t form : ℕ) → form < length FORMS → permit r t form ≡ other r t form)
        → IsSolution N permit limits budget cert found
        → IsSolution N other limits budget cert found }
{}

/// Under a permit that bars no form of the table the same layouts are legal as under that of all forms, and the
/// same ratios lack one.
pub fn a_permit_of_each_form_bars_no_layout()
    ensures legal { (N : Network) (permit : PermitTest) (L : Layout)
        → AllowsEachForm permit → IsLegal N permit L ↔ IsLegal N all_forms L }
    ensures lacking { (N : Network) (permit : PermitTest) (r : Ratio)
        → AllowsEachForm permit → LacksLayout N permit r ↔ LacksLayout N all_forms r }
{}
