//! Nets and designs, made of texts.
ghost use Rattle.std.specs.Prelude.{◌<◌, ◌^◌, length};

use bx_lex::read_tokens;
use bx_logic::{Net, NoMemory};
use bx_siqad::{Design, read_design};
use bx_verilog::{read_module, to_net};
use std::alloc::Global;
use std::test::Fail;

// A dot as n, m, l.
pub(crate) type Place = (u32, u32, u8);

// The net of a module's text.
pub(crate) fn net(alloc: Global, text: &str) -> Result<Net, Fail> {
    let text = text.as_bytes();
    if text.len() >= 1 << 32 {
        return Err("a text of the tests is short".into());
    }
    let tokens = read_tokens(alloc, text).map_err(|_| "a text of the tests has tokens")?;
    let module = read_module(alloc, text, &tokens).map_err(|_| "it is a module")?;
    Ok(to_net(alloc, &module).map_err(|_| "nothing is wrong with the module")?)
}

// The design of these sides and dots.
pub(crate) fn design(alloc: Global, w: u32, h: u32, dots: &[Place]) -> Result<Design, Fail> {
    let dots = dots_text(alloc, dots)?;
    let dots = dots.as_str();
    let text = format!(in alloc;
        "<?xml version=\"1.0\" encoding=\"UTF-8\"?>\n<siqad>\n<program>\n<file_purpose>save</file_purpose>\n<created_by>bestagon {w} {h}</created_by>\n</program>\n<layers>\n<layer_prop><name>Surface</name><type>DB</type></layer_prop>\n</layers>\n<design>\n<layer type=\"DB\">\n{dots}</layer>\n</design>\n</siqad>\n"
    )?;
    Ok(read_design(alloc, text.as_bytes())?)
}

// The lines of dots.
fn dots_text(alloc: Global, dots: &[Place]) -> Result<String, NoMemory> {
    let mut text = String::new(alloc);
    for (n, m, l) in dots {
        let line = format!(in alloc; "<dbdot><latcoord n=\"{n}\" m=\"{m}\" l=\"{l}\"/></dbdot>\n")?;
        text.push_str(line.as_str())?;
    }
    Ok(text)
}
