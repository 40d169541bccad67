//! Uses of values: what reads the value of a cell. Which uses a net in cells has, and in what order, is for
//! the definitions to say.

/// What reads a value.
#[derive(Clone, Copy)]
pub enum Consumer {
    /// An operand of a cell, both by their numbers.
    Operand(usize, u8),
    /// The output with this port.
    Output(u32),
}

/// The value of a cell is read by a consumer.
#[derive(Clone, Copy)]
pub struct Use {
    pub cell: usize,
    pub consumer: Consumer,
}
