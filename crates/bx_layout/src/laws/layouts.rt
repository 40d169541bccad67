//! What holds of legal layouts. Nothing here runs.
ghost use Rattle.std.specs.Prelude.{◌≡◌, ℕ, suc, ◌+◌, ◌≤◌, Some, slice_get};
ghost use Rattle.bx_forms.specs.declared.kind.Kind.{Kind};
ghost use Rattle.bx_grid.specs.Tiles.{IsTile, y_of};
ghost use Rattle.bx_network.specs.declared.node.Edge.{Edge};
ghost use Rattle.bx_network.specs.Networks.{Network, IsNetwork, HasKind};
ghost use Rattle.bx_network.specs.Paths.{IsDown, IsUp};
ghost use Rattle.bx_network.specs.Windows.{MayStand};
ghost use Rattle.bx_layout.specs.declared.layout.Layout.{Layout};
ghost use Rattle.bx_layout.specs.Grids.{FormGrid, IsSound};
ghost use Rattle.bx_layout.specs.Layouts.{Stands, IsFree, IsUsed, CarriesNothing};
ghost use Rattle.bx_layout.specs.Legal.{IsPlaced, StaysOnGrid, IsBalanced, IsLegal};
ghost use Rattle.bx_layout.specs.Permits.{PermitTest, IsWider, all_forms};
ghost use Rattle.bx_layout.specs.Pins.{pins_of, Computes};
ghost use Rattle.bx_layout.specs.TileForms.{HasForm, IsFormGridOf};
ghost use Rattle.bx_layout.specs.Ways.{IsWay, IsOnlyWay, IsRowClocked};

/// An edge is a path of borders, one below the other, from the tile of its source down to that of
/// its target, and no other border carries it.
pub fn an_edge_is_a_path_of_borders()
    ensures { (N : Network) (permit : PermitTest) (L : Layout) (e : ℕ) (edge : Edge) (a b : ℕ) →
        IsNetwork N → IsLegal N permit L → slice_get N.edges e ≡ Some edge →
        Stands L edge.source a → Stands L edge.target b →
        (n : ℕ) × IsWay L e a b (suc n) × IsOnlyWay L e a (suc n) }
{}

/// A tile on which a node stands or which carries an edge has exactly one form, and any other has
/// none.
pub fn a_tile_has_one_form()
    ensures some { (N : Network) (permit : PermitTest) (L : Layout) (t : ℕ) →
        IsNetwork N → IsLegal N permit L → IsTile L.ratio t →
        IsUsed L t → (form : ℕ) × HasForm N L t form }
    ensures once { (N : Network) (permit : PermitTest) (L : Layout) (t f g : ℕ) →
        IsNetwork N → IsLegal N permit L → IsTile L.ratio t →
        HasForm N L t f → HasForm N L t g → f ≡ g }
    ensures none { (N : Network) (permit : PermitTest) (L : Layout) (t form : ℕ) →
        IsNetwork N → IsLegal N permit L → IsTile L.ratio t →
        IsFree L t → CarriesNothing L t → HasForm N L t form → ⊥ }
{}

/// The form grid of a legal layout is sound, and with the pins where the nodes stand it computes
/// the network, whatever permit the layout is legal under, and however many rows there are.
pub fn a_legal_layout_computes_its_network()
    ensures sound { (N : Network) (permit : PermitTest) (L : Layout) (g : FormGrid) →
        IsNetwork N → IsLegal N permit L → IsFormGridOf N L g → IsSound g }
    ensures computes { (N : Network) (permit : PermitTest) (L : Layout) (g : FormGrid) →
        (inputs : ℕ) → IsNetwork N → IsLegal N permit L → IsFormGridOf N L g →
        Computes inputs g (pins_of N L) N }
{}

/// Of the six conditions the third follows from the first and the fourth.
pub fn no_edge_leads_off_the_grid()
    ensures { (N : Network) (L : Layout) →
        IsNetwork N → IsPlaced N L → IsBalanced N L → StaysOnGrid L }
{}

/// A node has room for its longest paths above it and below it, and so stands in its window.
pub fn a_node_stands_in_its_window()
    ensures above { (N : Network) (permit : PermitTest) (L : Layout) (v t down : ℕ) →
        IsNetwork N → IsLegal N permit L → Stands L v t →
        IsDown N v down → down ≤ y_of L.ratio t }
    ensures below { (N : Network) (permit : PermitTest) (L : Layout) (v t up : ℕ) →
        IsNetwork N → IsLegal N permit L → Stands L v t →
        IsUp N v up → y_of L.ratio t + up + 1 ≤ L.ratio.h }
    ensures window { (N : Network) (permit : PermitTest) (L : Layout) (v t down up : ℕ) →
        (kind : Kind) → IsNetwork N → IsLegal N permit L → Stands L v t → HasKind N v kind →
        IsDown N v down → IsUp N v up → MayStand kind down up (y_of L.ratio t) L.ratio.h }
{}

/// A layout that is legal under a permit is legal under every larger one, and under that of all
/// forms.
pub fn a_larger_permit_allows_more()
    ensures larger { (N : Network) (permit larger : PermitTest) (L : Layout) →
        IsWider permit larger → IsLegal N permit L → IsLegal N larger L }
    ensures all { (N : Network) (permit : PermitTest) (L : Layout) →
        IsLegal N permit L → IsLegal N all_forms L }
{}

/// What leaves a tile enters a tile of the next row, and so of the next of the four clock zones.
pub fn a_legal_layout_is_row_clocked()
    ensures { (N : Network) (permit : PermitTest) (L : Layout) →
        IsLegal N permit L → IsRowClocked L }
{}
