//! The rules by which an edge goes through a tile. What each of them says is in the definitions.

/// A rule that holds of each edge on each tile.
#[derive(Clone, Copy)]
pub enum Rule {
    /// What leaves a tile begins there, or enters it.
    ComesFromAbove,
    /// What enters a tile ends there, or leaves it.
    GoesOnBelow,
    /// It leaves the tile of its source, and enters that of its target.
    JoinsItsEnds,
    /// It leaves a tile once at most and enters it once at most, and not the one of its source.
    GoesOneWay,
    /// What touches a tile with a node begins or ends there.
    KeepsOffNodes,
}
