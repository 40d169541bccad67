//! Laws about the definitions alone, each the clause of a function with an empty body. Nothing here runs.
ghost use Rattle.std.specs.Prelude.{List, length};
ghost use Rattle.bx_cert.specs.declared.parts.Section.{Section};
ghost use Rattle.bx_grid.specs.declared.ratio.Ratio.{Ratio};
ghost use Rattle.bx_layout.specs.Legal.{LacksLayout};
ghost use Rattle.bx_layout.specs.Permits.{PermitTest};
ghost use Rattle.bx_network.specs.Networks.{Network, IsNetwork};
ghost use Rattle.bx_proof.specs.declared.refutation.Refutation.{Refutation};
ghost use Rattle.bx_refutes.specs.Refutations.{IsRefutedBy, AreSections, LackLayouts};

/// Where a refutation refutes a ratio, whoever made it, no layout of that ratio is legal under the permit.
pub fn a_refuted_ratio_has_no_layout()
    ensures { (N : Network) (permit : PermitTest) (r : Ratio) (proof : Refutation)
        → IsNetwork N → IsRefutedBy N permit r proof → LacksLayout N permit r }
{}

/// Where each section refutes its ratio, none of these ratios has a layout that is legal under the permit.
pub fn ratios_of_sections_have_no_layout()
    ensures { (N : Network) (permit : PermitTest) (ratios : List Ratio) (sections : List Section)
        → IsNetwork N → AreSections N permit ratios sections
        → LackLayouts N permit ratios (length sections) }
{}
