//! The name of a port, and where it is written.

/// Whether a name is written above the grid or below it.
#[derive(Clone, Copy)]
pub enum Place {
    /// Above the first row, where inputs stand.
    Above,
    /// Below the last row, where outputs stand.
    Below,
}

/// The name of a port that stands in a column of the first or of the last row.
#[derive(Clone, Copy)]
pub struct PortName<'a> {
    /// Its bytes, whatever they are.
    pub name: &'a [u8],
    /// The column of its tile, from 0.
    pub column: u32,
    /// Above or below the grid.
    pub place: Place,
}
