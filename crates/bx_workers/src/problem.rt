//! What workers race for.

use bx_grid::Ratios;
use bx_layout::Permit;
use bx_network::MappedNet;

/// The first of these ratios that the network has a layout of under a permit, each searched within a budget.
#[derive(Drop)]
pub struct Problem<'a> {
    pub net: &'a MappedNet,
    pub permit: &'a Permit,
    pub ratios: &'a Ratios,
    /// Of literals and hints of learned clauses, for each ratio.
    pub budget: u64,
}
