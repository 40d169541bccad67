//! The limits of a run: how long the files that are read may be, and how large a module's network.

/// The most bytes that a module's file may have.
pub const MODULE_BYTES: u64 = 1_048_576;

/// The most bytes that a library's file may have.
pub const LIBRARY_BYTES: u64 = 4_194_304;

/// The most bytes that a design's file may have to be read.
pub const DESIGN_BYTES: u64 = 16_777_216;

/// The most bytes that a certificate's file may have to be read.
pub const CERT_BYTES: u64 = 1_073_741_824;

/// The most nodes that a network may have to be laid out.
pub const MODULE_NODES: u32 = 96;
