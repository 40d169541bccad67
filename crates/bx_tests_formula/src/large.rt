//! The largest formula that is made: of a network of 96 nodes on a grid of 144 tiles.
ghost use Rattle.std.specs.Prelude.{◌<◌, ◌^◌, length};

use bx_lex::read_tokens;
use bx_map::map_net;
use bx_network::MappedNet;
use bx_syntax::{Module, read_module};
use bx_verilog::to_net;
use std::alloc::Global;
use std::test::Fail;

/// Two inputs, and 47 gates each of which reads the two values before it: with the fan-outs these are 96 nodes, and
/// 141 edges.
pub fn ladder(alloc: Global) -> Result<MappedNet, Fail> {
    let text = ladder_text(alloc)?;
    let module = module_of(alloc, text.as_bytes())?;
    let Ok(net) = to_net(alloc, &module) else {
        return Err("nothing is wrong with the module".into());
    };
    match map_net(alloc, &net, 96) {
        Ok(network) => Ok(network),
        Err(_) => Err("the module has a network of 96 nodes".into()),
    }
}

fn ladder_text(alloc: Global) -> Result<String, Fail> {
    let mut text = String::new(alloc);
    text.push_str("module m(v0, v1, v48); input v0, v1; output v48;")?;
    for k in 0..47 {
        let gate = format!(in alloc; "xor(v{}, v{}, v{});", k + 2, k, k + 1)?;
        text.push_str(gate.as_str())?;
    }
    text.push_str("endmodule")?;
    Ok(text)
}

fn module_of(alloc: Global, text: &[u8]) -> Result<Module, Fail> {
    if text.len() >= 1 << 32 {
        return Err("a text of the tests is short".into());
    }
    let Ok(tokens) = read_tokens(alloc, text) else {
        return Err("a text of the tests has tokens".into());
    };
    match read_module(alloc, text, &tokens) {
        Ok(module) => Ok(module),
        Err(_) => Err("a text of the tests is a module".into()),
    }
}
