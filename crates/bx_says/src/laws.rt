//! Laws about the definitions alone, each the clause of a function with an empty body. Nothing here runs.
ghost use Rattle.std.specs.Prelude.{◌≡◌, ℕ, List, length, slice_get, Some, is_none};
ghost use Rattle.bx_logic.specs.Nets.{Netlist};
ghost use Rattle.bx_grid.specs.Tiles.{IsTile};
ghost use Rattle.bx_network.specs.Networks.{Network, IsNetwork};
ghost use Rattle.bx_layout.specs.Grids.{FormGrid, IsFormGrid};
ghost use Rattle.bx_layout.specs.Pins.{pins_at};
ghost use Rattle.bx_layout.specs.Valuations.{is_input};
ghost use Rattle.bx_says.specs.Ports.{is_unused, tile_of};
ghost use Rattle.bx_says.specs.Reports.{Report, report_of, HasPlainNames, IsReportable, report_text};

/// Reports with the same text are the same: in the module's name, the size of its network, the names of the
/// unused inputs, the ports and their tiles, and the grid.
pub fn a_report_shows_one_layout()
    ensures { (r s : Report) → IsReportable r → IsReportable s → report_text r ≡ report_text s
        → r ≡ s }
{}

/// Where no name has a space or a line feed in it, and the nodes stand on tiles of a grid of forms, the report
/// is one that can be told from any other.
pub fn a_layout_with_plain_names_is_reportable()
    ensures { (net : Netlist) (N : Network) (places : List ℕ) (g : FormGrid) → HasPlainNames net → IsNetwork N → IsFormGrid g
        → ((v t : ℕ) → slice_get places v ≡ Some t → IsTile g.ratio t) → IsReportable (report_of net N places g) }
{}

/// An input is named as unused exactly where no line says on which tile it stands.
pub fn an_input_is_unused_or_has_a_tile()
    ensures { (N : Network) (places : List ℕ) (port : ℕ) → length places ≡ length N.nodes
        → is_unused N port ≡ is_none (tile_of (pins_at is_input N.nodes places) port) }
{}
