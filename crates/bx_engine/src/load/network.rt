//! From the file of a module to its network. The text is cut into tokens, these are read as a module, the module gives
//! its net, and the net is mapped. Each step is another's.
ghost use Rattle.std.specs.Prelude.{◌≡◌, ◌<◌, length, slice_index_or, [], IfOk, IfErr, OnOk};
ghost use Rattle.bx_logic.specs.Nets.{output_names};
ghost use Rattle.bx_engine.specs.Texts.{IsShort, IsRefused};
ghost use Rattle.bx_engine.specs.Runs.{HasNet, HasNetwork, HasModule, ReadsModule, NetEnds, TextEnds, FileEnds};

use crate::limits::{MODULE_BYTES, MODULE_NODES};
use crate::load::{Module, NoInput};
use crate::status::{InputFault, Which};
use bx_desk::{Desk, LoadFault};
use bx_lex::{LexFault, read_tokens};
use bx_logic::{Name, Net, NoMemory};
use bx_map::{MapFault, map_net};
use bx_network::MappedNet;
use bx_verilog::{NetFault, ReadFault, read_module, to_net};
use std::alloc::Global;

impl From<LexFault> for NoInput {
    ghost use Rattle.std.specs.Prelude.{◌≡◌};
    ghost use Rattle.bx_engine.specs.Runs.{lex_end};

    ghost from_gives = { λ fault end. end ≡ lex_end fault };

    fn from(fault: LexFault) -> Self {
        match fault {
            LexFault::NoMemory => NoInput::NoMemory,
            fault => NoInput::Fault(InputFault::Lex(fault)),
        }
    }
}

impl From<ReadFault> for NoInput {
    ghost use Rattle.std.specs.Prelude.{◌≡◌};
    ghost use Rattle.bx_engine.specs.Runs.{read_end};

    ghost from_gives = { λ fault end. end ≡ read_end fault };

    fn from(fault: ReadFault) -> Self {
        match fault {
            ReadFault::NoMemory => NoInput::NoMemory,
            fault => NoInput::Fault(InputFault::Read(fault)),
        }
    }
}

impl From<NetFault> for NoInput {
    ghost use Rattle.std.specs.Prelude.{◌≡◌};
    ghost use Rattle.bx_engine.specs.Runs.{net_end};

    ghost from_gives = { λ fault end. end ≡ net_end fault };

    fn from(fault: NetFault) -> Self {
        match fault {
            NetFault::NoMemory => NoInput::NoMemory,
            fault => NoInput::Fault(InputFault::Net(fault)),
        }
    }
}

/// Loads the file, reads its module and maps it.
pub fn load_module<D: Desk>(alloc: Global, name: &str, desk: &mut D) -> Result<Module, NoInput>
    ensures source { IfOk result (λ source.
        ReadsModule (D.state desk.old).files name.now source.net source.mapped) }
    ensures ok_stays { OnOk result (D.state desk.new ≡ D.state desk.old) }
    ensures err { IfErr result (FileEnds IsRefused (D.state desk.old) (D.state desk.new) name.now) }
{
    let mut text = Vec::new(alloc);
    match desk.load(name, MODULE_BYTES, &mut text) {
        Ok(()) => module_of_text(alloc, &text),
        Err(LoadFault::TooLong) => Err(NoInput::Fault(InputFault::TooLong(Which::NetFile))),
        Err(LoadFault::Failed) => Err(NoInput::Unread),
        Err(LoadFault::NoMemory) => Err(NoInput::NoMemory),
    }
}

/// Reads the module of a text and maps it.
pub(crate) fn module_of_text(alloc: Global, text: &[u8]) -> Result<Module, NoInput>
    requires { IsShort text.now }
    ensures source { IfOk result (λ source. HasModule text.now source.net source.mapped) }
    ensures err { IfErr result (TextEnds text.now) }
{
    let net = net_of_text(alloc, text)?;
    let mapped = network_of_net(alloc, &net)?;
    Ok(Module { net, mapped })
}

// Reads the module of a text, and makes its net.
fn net_of_text(alloc: Global, text: &[u8]) -> Result<Net, NoInput>
    requires { IsShort text.now }
    ensures net { IfOk result (HasNet text.now) }
    ensures err { IfErr result (TextEnds text.now) }
{
    let tokens = read_tokens(alloc, text)?;
    let module = read_module(alloc, text, &tokens)?;
    let net = to_net(alloc, &module)?;
    Ok(net)
}

// Maps a net to its network, unless an output is constant or there are too many nodes.
fn network_of_net(alloc: Global, net: &Net) -> Result<MappedNet, NoInput>
    ensures network { IfOk result (HasNetwork net.now) }
    ensures err { IfErr result (NetEnds net.now) }
{
    match map_net(alloc, net, MODULE_NODES) {
        Ok(mapped) => Ok(mapped),
        Err(MapFault::ConstantOutput(port)) => {
            let name = name_of_output(alloc, net, port)?;
            Err(NoInput::Fault(InputFault::Constant(name)))
        }
        Err(MapFault::TooManyNodes(count)) => Err(NoInput::Fault(InputFault::Nodes(count))),
        Err(MapFault::NoMemory) => Err(NoInput::NoMemory),
    }
}

// The name of an output, as one of its own.
fn name_of_output(alloc: Global, net: &Net, port: u32) -> Result<Name, NoMemory>
    requires { port < length net.now.outputs }
    ensures { IfOk result (λ name. name ≡ slice_index_or (output_names net.now) port []) }
{
    let bytes = Vec::from_slice(alloc, net.output_name(port).as_slice())?;
    Ok(Name::new(bytes))
}
