//! Names within XML. What XML gives a meaning is written by its name, and a byte that isn't a printable one of ASCII as
//! `\x` and two digits, as XML can't hold control bytes, and bytes over 127 need not be UTF-8.
ghost use Rattle.std.specs.Prelude.{◌≡◌, ◌∷◌, [], ℕ, ◌<◌, flat_map};
ghost use Rattle.bx_desk.specs.Printing.{Prints};
ghost use Rattle.bx_draw.specs.Escapes.{escaped_byte, escaped, hex_digit};

use bx_desk::{Desk, Printer};

/// Puts out a name, escaped.
pub(crate) fn print_escaped<D: Desk>(name: &[u8], printer: &mut Printer<D>)
    ensures { Prints printer.old printer.new (escaped name.now) }
{
    for byte in name {
        print_byte(*byte, printer);
    }
}

// A byte of a name, escaped.
fn print_byte<D: Desk>(byte: u8, printer: &mut Printer<D>)
    ensures { Prints printer.old printer.new (escaped_byte byte) }
{
    match byte {
        b'<' => printer.bytes(b"&lt;"),
        b'>' => printer.bytes(b"&gt;"),
        b'&' => printer.bytes(b"&amp;"),
        b'"' => printer.bytes(b"&quot;"),
        32..=126 => printer.bytes(&[byte]),
        _ => printer.bytes(&[b'\\', b'x', digit(byte / 16), digit(byte % 16)]),
    }
}

// A digit of base 16.
fn digit(n: u8) -> u8
    requires { n < 16 }
    ensures { result ≡ hex_digit n }
{
    if n < 10 { b'0' + n } else { b'a' + (n - 10) }
}
