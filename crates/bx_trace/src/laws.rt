//! What holds of traced form grids. Nothing here runs.
ghost use Rattle.std.specs.Prelude.{◌≡◌, ◌↔◌, ℕ, List, length};
ghost use Rattle.bx_grid.specs.Tiles.{tile_count};
ghost use Rattle.bx_network.specs.Networks.{Network, IsNetwork};
ghost use Rattle.bx_layout.specs.declared.layout.Layout.{Layout};
ghost use Rattle.bx_layout.specs.Grids.{FormGrid, IsSound};
ghost use Rattle.bx_layout.specs.Legal.{IsLegal};
ghost use Rattle.bx_layout.specs.Permits.{all_forms};
ghost use Rattle.bx_layout.specs.Pins.{Computes};
ghost use Rattle.bx_layout.specs.TileForms.{IsFormGridOf};
ghost use Rattle.bx_trace.specs.Traced.{pins_on, IsLegalWith, IsTraced};
ghost use Rattle.bx_trace.specs.Twins.{DifferByTwins};

/// A form grid that is that of some legal layout with these places is sound, and with the pins where
/// the places are it computes the network.
pub fn a_traced_grid_computes_its_network()
    ensures sound { (N : Network) (g : FormGrid) (places : List ℕ) →
        IsNetwork N → IsTraced N g places → IsSound g }
    ensures computes { (N : Network) (g : FormGrid) (places : List ℕ) (inputs : ℕ) →
        IsNetwork N → IsTraced N g places → Computes inputs g (pins_on N places) N }
{}

/// Of a grid with an entry for each tile, as every one is that runs, it says that some legal layout
/// has these places and that this is its form grid.
pub fn a_traced_grid_is_a_layouts_form_grid()
    ensures { (N : Network) (g : FormGrid) (places : List ℕ) →
        length g.tiles ≡ tile_count g.ratio →
        IsTraced N g places ↔ ((L : Layout) × (L.places ≡ places)
        × IsLegal N all_forms L × IsFormGridOf N L g) }
{}

/// Two layouts of one network, legal whatever form stands on a tile, with the same places and the
/// same form grid differ at most by which of two edges from one node to one other goes which way.
pub fn a_form_grid_and_places_have_one_layout_up_to_twins()
    ensures { (N : Network) (g : FormGrid) (L M : Layout) → IsNetwork N → L.places ≡ M.places →
        IsLegalWith N L g → IsLegalWith N M g → DifferByTwins N L M }
{}
