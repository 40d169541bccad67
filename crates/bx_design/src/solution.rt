//! What comes of a search for a layout: a certificate, and the layout where one was found.

use bx_cert::Cert;
use bx_layout::{FormGrid, Layout};

/// What came of a search for a layout.
#[derive(Drop)]
pub struct Solution {
    /// Why each earlier ratio has no layout, and how the search ended.
    pub cert: Cert,
    /// What was found, if it ended so.
    pub found: Option<LaidOut>,
}

/// A layout, with the form of each tile.
#[derive(Drop)]
pub struct LaidOut {
    /// The places of the nodes and the ways of the edges.
    pub layout: Layout,
    /// The form of each tile.
    pub grid: FormGrid,
}
