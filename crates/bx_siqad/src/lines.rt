//! The lines that each design has: those before the sides of the grid, between them and the dots, and behind
//! the dots. The writer and the reader have them from here.

/// The lines before the sides of the grid.
pub(crate) const FRONT: [&str; 4] = [
    "<?xml version=\"1.0\" encoding=\"UTF-8\"?>",
    "<siqad>",
    "<program>",
    "<file_purpose>save</file_purpose>",
];

/// The lines between the sides and the dots.
pub(crate) const MIDDLE: [&str; 6] = [
    "</program>",
    "<layers>",
    "<layer_prop><name>Surface</name><type>DB</type></layer_prop>",
    "</layers>",
    "<design>",
    "<layer type=\"DB\">",
];

/// The lines behind the dots.
pub(crate) const BACK: [&str; 3] = ["</layer>", "</design>", "</siqad>"];
