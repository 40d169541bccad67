//! What is drawn on tiles, as data: an outline, and a symbol for each form under the form's name, round the middle of
//! a tile that is 104 wide and 120 high. What enters or leaves by a side does so at the middle of that side: 26 left or
//! right of the middle, and 45 above or below it. The four colours of the clock zones stay apart in grey too. A legend
//! explains them. Dots that are drawn over the tiles stand out by their colour and by a white edge.

/// The styles and the symbols.
pub(crate) static SYMBOLS: [&str; 37] = [
    "<defs>",
    "<style type=\"text/css\">",
    ".z0{fill:#fffbe6}.z1{fill:#f9d58a}.z2{fill:#8fc1dd}.z3{fill:#5d8fb0}",
    ".h{stroke:#444;stroke-width:2}.w{fill:none;stroke:#111;stroke-width:5;stroke-linecap:round}.b{fill:#fff;stroke:#111;stroke-width:3}",
    "circle{fill:#111}.d circle{fill:#c00020;stroke:#fff;stroke-width:20}text{font-family:sans-serif;text-anchor:middle;fill:#111;stroke:none}.t{font-size:17px;font-weight:bold}.p{font-size:18px}.k{font-size:14px}",
    "</style>",
    "<path id=\"tile\" class=\"h\" d=\"M0 -60L52 -30V30L0 60L-52 30V-30Z\"/>",
    "<g id=\"empty\"/>",
    "<g id=\"input_l\"><path class=\"w\" d=\"M0 14C0 30 -26 30 -26 45\"/><path class=\"b\" d=\"M-24 -16H24L12 14H-12Z\"/><text class=\"t\" y=\"4\">IN</text></g>",
    "<g id=\"input_r\"><path class=\"w\" d=\"M0 14C0 30 26 30 26 45\"/><path class=\"b\" d=\"M-24 -16H24L12 14H-12Z\"/><text class=\"t\" y=\"4\">IN</text></g>",
    "<g id=\"output_l\"><path class=\"w\" d=\"M-26 -45C-26 -30 0 -30 0 -14\"/><path class=\"b\" d=\"M-14 -14H14L28 16H-28Z\"/><text class=\"t\" y=\"10\">OUT</text></g>",
    "<g id=\"output_r\"><path class=\"w\" d=\"M26 -45C26 -30 0 -30 0 -14\"/><path class=\"b\" d=\"M-14 -14H14L28 16H-28Z\"/><text class=\"t\" y=\"10\">OUT</text></g>",
    "<g id=\"wire_ll\"><path class=\"w\" d=\"M-26 -45C-26 -10 -26 10 -26 45\"/></g>",
    "<g id=\"wire_lr\"><path class=\"w\" d=\"M-26 -45C-26 -10 26 10 26 45\"/></g>",
    "<g id=\"wire_rl\"><path class=\"w\" d=\"M26 -45C26 -10 -26 10 -26 45\"/></g>",
    "<g id=\"wire_rr\"><path class=\"w\" d=\"M26 -45C26 -10 26 10 26 45\"/></g>",
    "<g id=\"not_ll\"><path class=\"w\" d=\"M-26 -45C-26 -30 0 -30 0 -14\"/><path class=\"w\" d=\"M0 14C0 30 -26 30 -26 45\"/><rect class=\"b\" x=\"-30\" y=\"-16\" width=\"60\" height=\"32\" rx=\"8\"/><text class=\"t\" y=\"6\">NOT</text></g>",
    "<g id=\"not_lr\"><path class=\"w\" d=\"M-26 -45C-26 -30 0 -30 0 -14\"/><path class=\"w\" d=\"M0 14C0 30 26 30 26 45\"/><rect class=\"b\" x=\"-30\" y=\"-16\" width=\"60\" height=\"32\" rx=\"8\"/><text class=\"t\" y=\"6\">NOT</text></g>",
    "<g id=\"not_rl\"><path class=\"w\" d=\"M26 -45C26 -30 0 -30 0 -14\"/><path class=\"w\" d=\"M0 14C0 30 -26 30 -26 45\"/><rect class=\"b\" x=\"-30\" y=\"-16\" width=\"60\" height=\"32\" rx=\"8\"/><text class=\"t\" y=\"6\">NOT</text></g>",
    "<g id=\"not_rr\"><path class=\"w\" d=\"M26 -45C26 -30 0 -30 0 -14\"/><path class=\"w\" d=\"M0 14C0 30 26 30 26 45\"/><rect class=\"b\" x=\"-30\" y=\"-16\" width=\"60\" height=\"32\" rx=\"8\"/><text class=\"t\" y=\"6\">NOT</text></g>",
    "<g id=\"fan_l\"><path class=\"w\" d=\"M-26 -45C-26 -30 0 -30 0 -14\"/><path class=\"w\" d=\"M0 -14V0\"/><path class=\"w\" d=\"M0 0C0 25 -26 20 -26 45\"/><path class=\"w\" d=\"M0 0C0 25 26 20 26 45\"/><circle r=\"8\"/></g>",
    "<g id=\"fan_r\"><path class=\"w\" d=\"M26 -45C26 -30 0 -30 0 -14\"/><path class=\"w\" d=\"M0 -14V0\"/><path class=\"w\" d=\"M0 0C0 25 -26 20 -26 45\"/><path class=\"w\" d=\"M0 0C0 25 26 20 26 45\"/><circle r=\"8\"/></g>",
    "<g id=\"and_l\"><path class=\"w\" d=\"M-26 -45C-26 -30 -12 -30 -12 -14\"/><path class=\"w\" d=\"M26 -45C26 -30 12 -30 12 -14\"/><path class=\"w\" d=\"M0 14C0 30 -26 30 -26 45\"/><rect class=\"b\" x=\"-30\" y=\"-16\" width=\"60\" height=\"32\" rx=\"8\"/><text class=\"t\" y=\"6\">AND</text></g>",
    "<g id=\"and_r\"><path class=\"w\" d=\"M-26 -45C-26 -30 -12 -30 -12 -14\"/><path class=\"w\" d=\"M26 -45C26 -30 12 -30 12 -14\"/><path class=\"w\" d=\"M0 14C0 30 26 30 26 45\"/><rect class=\"b\" x=\"-30\" y=\"-16\" width=\"60\" height=\"32\" rx=\"8\"/><text class=\"t\" y=\"6\">AND</text></g>",
    "<g id=\"or_l\"><path class=\"w\" d=\"M-26 -45C-26 -30 -12 -30 -12 -14\"/><path class=\"w\" d=\"M26 -45C26 -30 12 -30 12 -14\"/><path class=\"w\" d=\"M0 14C0 30 -26 30 -26 45\"/><rect class=\"b\" x=\"-30\" y=\"-16\" width=\"60\" height=\"32\" rx=\"8\"/><text class=\"t\" y=\"6\">OR</text></g>",
    "<g id=\"or_r\"><path class=\"w\" d=\"M-26 -45C-26 -30 -12 -30 -12 -14\"/><path class=\"w\" d=\"M26 -45C26 -30 12 -30 12 -14\"/><path class=\"w\" d=\"M0 14C0 30 26 30 26 45\"/><rect class=\"b\" x=\"-30\" y=\"-16\" width=\"60\" height=\"32\" rx=\"8\"/><text class=\"t\" y=\"6\">OR</text></g>",
    "<g id=\"nand_l\"><path class=\"w\" d=\"M-26 -45C-26 -30 -12 -30 -12 -14\"/><path class=\"w\" d=\"M26 -45C26 -30 12 -30 12 -14\"/><path class=\"w\" d=\"M0 14C0 30 -26 30 -26 45\"/><rect class=\"b\" x=\"-30\" y=\"-16\" width=\"60\" height=\"32\" rx=\"8\"/><text class=\"t\" y=\"6\">NAND</text></g>",
    "<g id=\"nand_r\"><path class=\"w\" d=\"M-26 -45C-26 -30 -12 -30 -12 -14\"/><path class=\"w\" d=\"M26 -45C26 -30 12 -30 12 -14\"/><path class=\"w\" d=\"M0 14C0 30 26 30 26 45\"/><rect class=\"b\" x=\"-30\" y=\"-16\" width=\"60\" height=\"32\" rx=\"8\"/><text class=\"t\" y=\"6\">NAND</text></g>",
    "<g id=\"nor_l\"><path class=\"w\" d=\"M-26 -45C-26 -30 -12 -30 -12 -14\"/><path class=\"w\" d=\"M26 -45C26 -30 12 -30 12 -14\"/><path class=\"w\" d=\"M0 14C0 30 -26 30 -26 45\"/><rect class=\"b\" x=\"-30\" y=\"-16\" width=\"60\" height=\"32\" rx=\"8\"/><text class=\"t\" y=\"6\">NOR</text></g>",
    "<g id=\"nor_r\"><path class=\"w\" d=\"M-26 -45C-26 -30 -12 -30 -12 -14\"/><path class=\"w\" d=\"M26 -45C26 -30 12 -30 12 -14\"/><path class=\"w\" d=\"M0 14C0 30 26 30 26 45\"/><rect class=\"b\" x=\"-30\" y=\"-16\" width=\"60\" height=\"32\" rx=\"8\"/><text class=\"t\" y=\"6\">NOR</text></g>",
    "<g id=\"xor_l\"><path class=\"w\" d=\"M-26 -45C-26 -30 -12 -30 -12 -14\"/><path class=\"w\" d=\"M26 -45C26 -30 12 -30 12 -14\"/><path class=\"w\" d=\"M0 14C0 30 -26 30 -26 45\"/><rect class=\"b\" x=\"-30\" y=\"-16\" width=\"60\" height=\"32\" rx=\"8\"/><text class=\"t\" y=\"6\">XOR</text></g>",
    "<g id=\"xor_r\"><path class=\"w\" d=\"M-26 -45C-26 -30 -12 -30 -12 -14\"/><path class=\"w\" d=\"M26 -45C26 -30 12 -30 12 -14\"/><path class=\"w\" d=\"M0 14C0 30 26 30 26 45\"/><rect class=\"b\" x=\"-30\" y=\"-16\" width=\"60\" height=\"32\" rx=\"8\"/><text class=\"t\" y=\"6\">XOR</text></g>",
    "<g id=\"xnor_l\"><path class=\"w\" d=\"M-26 -45C-26 -30 -12 -30 -12 -14\"/><path class=\"w\" d=\"M26 -45C26 -30 12 -30 12 -14\"/><path class=\"w\" d=\"M0 14C0 30 -26 30 -26 45\"/><rect class=\"b\" x=\"-30\" y=\"-16\" width=\"60\" height=\"32\" rx=\"8\"/><text class=\"t\" y=\"6\">XNOR</text></g>",
    "<g id=\"xnor_r\"><path class=\"w\" d=\"M-26 -45C-26 -30 -12 -30 -12 -14\"/><path class=\"w\" d=\"M26 -45C26 -30 12 -30 12 -14\"/><path class=\"w\" d=\"M0 14C0 30 26 30 26 45\"/><rect class=\"b\" x=\"-30\" y=\"-16\" width=\"60\" height=\"32\" rx=\"8\"/><text class=\"t\" y=\"6\">XNOR</text></g>",
    "<g id=\"double\"><path class=\"w\" d=\"M-26 -45C-26 -10 -26 10 -26 45\"/><path class=\"w\" d=\"M26 -45C26 -10 26 10 26 45\"/></g>",
    "<g id=\"cross\"><path class=\"w\" d=\"M-26 -45C-26 -10 26 10 26 45\"/><path class=\"w\" d=\"M26 -45C26 -18 18 -12 9 -5\"/><path class=\"w\" d=\"M-9 5C-18 12 -26 18 -26 45\"/></g>",
    "</defs>",
];

/// A small tile of each clock zone.
pub(crate) static LEGEND: [&str; 5] = [
    "<g class=\"z0\" transform=\"translate(0 0) scale(0.3)\"><use xlink:href=\"#tile\"/></g><text class=\"k\" x=\"0\" y=\"5\">0</text>",
    "<g class=\"z1\" transform=\"translate(36 0) scale(0.3)\"><use xlink:href=\"#tile\"/></g><text class=\"k\" x=\"36\" y=\"5\">1</text>",
    "<g class=\"z2\" transform=\"translate(72 0) scale(0.3)\"><use xlink:href=\"#tile\"/></g><text class=\"k\" x=\"72\" y=\"5\">2</text>",
    "<g class=\"z3\" transform=\"translate(108 0) scale(0.3)\"><use xlink:href=\"#tile\"/></g><text class=\"k\" x=\"108\" y=\"5\">3</text>",
    "<text class=\"k\" x=\"54\" y=\"34\">clock zones</text>",
];
