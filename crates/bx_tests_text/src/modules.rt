//! Modules of texts and their nets, for the tests of what reads them.
ghost use Rattle.std.specs.Prelude.{◌≡◌, ◌<◌, ◌^◌, length};

use bx_lex::read_tokens;
use bx_logic::Net;
use bx_syntax::{Module, ReadFault, read_module};
use bx_verilog::{NetFault, to_net};
use std::alloc::{AllocError, Global};
use std::test::Fail;

/// Whether a text that has tokens is a module, or with what fault it is refused.
pub fn answer(alloc: Global, text: &[u8]) -> Result<String, Fail> {
    Ok(match read(alloc, text)? {
        Ok(_) => String::from_str(alloc, "taken")?,
        Err(fault) => format!(in alloc; "{fault:?}")?,
    })
}

/// The module of a text.
pub fn module_of(alloc: Global, text: &str) -> Result<Module, Fail> {
    match read(alloc, text.as_bytes())? {
        Ok(module) => Ok(module),
        Err(_) => Err("a text of the tests is a module".into()),
    }
}

fn read(alloc: Global, text: &[u8]) -> Result<Result<Module, ReadFault>, Fail> {
    if text.len() >= 1 << 32 {
        return Err("a text of the tests is short".into());
    }
    let Ok(tokens) = read_tokens(alloc, text) else {
        return Err("a text of the tests has tokens".into());
    };
    Ok(read_module(alloc, text, &tokens))
}

/// The net of a module in which nothing is wrong.
pub fn net_of(alloc: Global, text: &str) -> Result<Net, Fail> {
    let module = module_of(alloc, text)?;
    match to_net(alloc, &module) {
        Ok(net) => Ok(net),
        Err(_) => Err("nothing is wrong with the module".into()),
    }
}

/// The first fault of a module in which something is wrong.
pub fn fault_of(alloc: Global, text: &str) -> Result<NetFault, Fail> {
    let module = module_of(alloc, text)?;
    match to_net(alloc, &module) {
        Ok(_) => Err("something is wrong with the module".into()),
        Err(fault) => Ok(fault),
    }
}

/// A text of the tables, which have what stands behind `module m`.
pub fn text_of(alloc: Global, item: &str) -> Result<String, AllocError> {
    format!(in alloc; "module m{item} endmodule")
}
