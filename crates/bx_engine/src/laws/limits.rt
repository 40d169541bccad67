//! The constants of the code that definitions cite are these numbers. Nothing here runs.
ghost use Rattle.std.specs.Prelude.{◌≡◌};
ghost use Rattle.bx_cert.specs.declared.parts.TheConstants.{MOST_CERT_BUDGET};
ghost use Rattle.bx_encode.specs.declared.numbers.TheConstants.{MOST_AREA, MOST_NODES};
ghost use Rattle.bx_grid.specs.declared.ratio.TheConstants.{MOST_LIMIT, MOST_TILES};
ghost use Rattle.bx_engine.specs.declared.limits.TheConstants.{MODULE_BYTES, LIBRARY_BYTES, DESIGN_BYTES, CERT_BYTES, MODULE_NODES};

/// The most bytes of a module, a library, a design and a certificate; the most nodes of a network, and the most nodes and tiles of a formula; the most that a
/// limit may be, and the most tiles of a grid; the most that a budget may be.
pub fn the_limits_are_these()
    ensures bytes { MODULE_BYTES ≡ 1048576 }
    ensures library_bytes { LIBRARY_BYTES ≡ 4194304 }
    ensures design_bytes { DESIGN_BYTES ≡ 16777216 }
    ensures cert_bytes { CERT_BYTES ≡ 1073741824 }
    ensures nodes { MODULE_NODES ≡ 96 }
    ensures encoded_nodes { MOST_NODES ≡ 96 }
    ensures encoded_tiles { MOST_AREA ≡ 144 }
    ensures limit { MOST_LIMIT ≡ 144 }
    ensures tiles { MOST_TILES ≡ 4194304 }
    ensures budget { MOST_CERT_BUDGET ≡ 67108864 }
{}
