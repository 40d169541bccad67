//! Runs one stage of the program on one file and says how much came out, in one line or, of a network, by
//! all its nodes and edges, so that its time and its memory can be measured alone. It promises nothing that
//! the crate of the stage doesn't.
#![tactic(auto)]

mod dimacs;
mod search;

ghost use Rattle.bx_lex.specs.Tokens.{HasTokens};

use crate::dimacs::say_dimacs;
use crate::search::say_search;
use bx_forms::Kind;
use bx_grid::Ratio;
use bx_lex::{Tokens, read_tokens};
use bx_logic::{Name, Net};
use bx_map::{MappedNet, Node, map_net};
use bx_verilog::{Module, read_module, to_net};
use std::alloc::AllocError;
use std::process::ExitCode;
use std::{env, fs, io};

// The longest text whose tree is read, in bytes.
const LONGEST: usize = 1_048_576;

// The most nodes of a network that is made. More are counted.
const MOST_NODES: u32 = 65_536;

// What can be run.
#[derive(Clone, Copy)]
enum Stage {
    /// The tokens of the text.
    Tokens,
    /// The tree of its module.
    Tree,
    /// The net of its module, and the values of the outputs.
    Net,
    /// The mapped network of its module.
    Map,
    /// The formula of its network on a grid.
    Dimacs(Ratio),
    /// The search of that formula, within a budget.
    Search(Ratio, u64),
}

impl Stage {
    // The stage that runs on a file alone.
    fn named(word: &str) -> Option<Stage> {
        match word {
            "tokens" => Some(Stage::Tokens),
            "tree" => Some(Stage::Tree),
            "net" => Some(Stage::Net),
            "map" => Some(Stage::Map),
            _ => None,
        }
    }
}

// Says how many tokens there are.
fn say_tokens(rt: &HostRuntime, tokens: &Tokens) -> io::Result<bool> {
    let count = tokens.len();
    println!(rt; "{count} tokens")?;
    Ok(true)
}

// The module that these tokens spell. Where there is none, that is said.
fn module_of(rt: &HostRuntime, text: &[u8], tokens: &Tokens) -> io::Result<Option<Module>>
    requires { HasTokens text.now tokens.now }
{
    if text.len() > LONGEST {
        println!(rt; "too long")?;
        return Ok(None);
    }
    match read_module(rt.alloc(), text, tokens) {
        Ok(module) => Ok(Some(module)),
        Err(fault) => {
            println!(rt; "{fault:?}")?;
            Ok(None)
        }
    }
}

// Says how many items a module has.
fn say_tree(rt: &HostRuntime, module: &Module) -> io::Result<bool> {
    let count = module.items().len();
    println!(rt; "{count} items")?;
    Ok(true)
}

// The values of the outputs where each input is 1.
fn values(rt: &HostRuntime, net: &Net) -> Result<Vec<bool>, AllocError> {
    let bits = vec![in rt.alloc(); true; net.input_count() as usize]?;
    let mut values = Vec::new(rt.alloc());
    net.eval(rt.alloc(), &bits, &mut values)
        .map_err(|_| AllocError)?;
    Ok(values)
}

// The net of a module. Where there is none, that is said.
fn net_of(rt: &HostRuntime, module: &Module) -> io::Result<Option<Net>> {
    match to_net(rt.alloc(), module) {
        Ok(net) => Ok(Some(net)),
        Err(fault) => {
            println!(rt; "{fault:?}")?;
            Ok(None)
        }
    }
}

// Says how many nets there are, and how many outputs have a value.
fn say_net(rt: &HostRuntime, net: &Net) -> io::Result<bool> {
    let nets = net.len();
    let outputs = values(rt, net)?.len();
    println!(rt; "{nets} nets, {outputs} outputs")?;
    Ok(true)
}

// The mapped network of a net. Where there is none, that is said.
fn network_of(rt: &HostRuntime, net: &Net) -> io::Result<Option<MappedNet>> {
    match map_net(rt.alloc(), net, MOST_NODES) {
        Ok(network) => Ok(Some(network)),
        Err(fault) => {
            println!(rt; "{fault:?}")?;
            Ok(None)
        }
    }
}

// Says the mapped network of a net.
fn say_map(rt: &HostRuntime, net: &Net, network: &MappedNet) -> io::Result<bool> {
    say_nodes(rt, net, network)?;
    say_edges(rt, network)?;
    Ok(true)
}

// Says each node in a line: its number, its kind, its longest paths, and its name where it is a port.
fn say_nodes(rt: &HostRuntime, net: &Net, network: &MappedNet) -> io::Result<()> {
    for v in 0..network.node_count() {
        let node = network.node(v);
        let (kind, down, up) = (node.kind, network.down(v), network.up(v));
        match port_name(net, node) {
            Some(name) => {
                let name = String::from_utf8_lossy(rt.alloc(), name.as_slice())?;
                println!(rt; "node {v} {kind:?} down {down} up {up} {name}")?;
            }
            None => println!(rt; "node {v} {kind:?} down {down} up {up}")?,
        }
    }
    Ok(())
}

// The name of the port that a node stands for.
fn port_name(net: &Net, node: Node) -> Option<&Name> {
    match node.kind {
        Kind::Input if node.port < net.input_count() => Some(net.input_name(node.port)),
        Kind::Output if node.port < net.output_count() => Some(net.output_name(node.port)),
        _ => None,
    }
}

// Says each edge in a line: its number, and from where to where it leads.
fn say_edges(rt: &HostRuntime, network: &MappedNet) -> io::Result<()> {
    for e in 0..network.edge_count() {
        let edge = network.edge(e);
        println!(rt;
            "edge {e} {}.{} {}.{}",
            edge.source, edge.slot, edge.target, edge.operand
        )?;
    }
    Ok(())
}

// Runs the stage. Answers whether it ended without a fault.
fn run(rt: &HostRuntime, stage: Stage, text: &[u8]) -> io::Result<bool> {
    let tokens = match read_tokens(rt.alloc(), text) {
        Ok(tokens) => tokens,
        Err(fault) => {
            println!(rt; "{fault}")?;
            return Ok(false);
        }
    };
    if let Stage::Tokens = stage {
        return say_tokens(rt, &tokens);
    }
    let Some(module) = module_of(rt, text, &tokens)? else {
        return Ok(false);
    };
    if let Stage::Tree = stage {
        return say_tree(rt, &module);
    }
    let Some(net) = net_of(rt, &module)? else {
        return Ok(false);
    };
    if let Stage::Net = stage {
        return say_net(rt, &net);
    }
    let Some(network) = network_of(rt, &net)? else {
        return Ok(false);
    };
    match stage {
        Stage::Dimacs(ratio) => say_dimacs(rt, &network, ratio),
        Stage::Search(ratio, budget) => say_search(rt, &network, ratio, budget),
        _ => say_map(rt, &net, &network),
    }
}

// What the words say is to be run, and on which file.
fn task_of(words: &[String]) -> Option<(Stage, &str)> {
    match words {
        [stage, path] => Some((Stage::named(stage.as_str())?, path.as_str())),
        [stage, path, w, h] if stage.as_str() == "dimacs" => {
            let ratio = ratio_of(w.as_str(), h.as_str())?;
            Some((Stage::Dimacs(ratio), path.as_str()))
        }
        [stage, path, w, h, budget] if stage.as_str() == "search" => {
            let ratio = ratio_of(w.as_str(), h.as_str())?;
            let budget = budget.as_str().parse::<u64>().ok()?;
            Some((Stage::Search(ratio, budget), path.as_str()))
        }
        _ => None,
    }
}

// So many columns and rows.
fn ratio_of(w: &str, h: &str) -> Option<Ratio> {
    let w = w.parse::<u32>().ok()?;
    let h = h.parse::<u32>().ok()?;
    Some(Ratio { w, h })
}

fn main(rt: HostRuntime) -> io::Result<ExitCode> {
    let words: Vec<String> = env::args(&rt)?.skip(1).collect(rt.alloc())?;
    let Some((stage, path)) = task_of(&words) else {
        println!(rt;
            "the words are STAGE FILE, dimacs FILE COLUMNS ROWS or search FILE COLUMNS ROWS BUDGET"
        )?;
        return Ok(ExitCode::FAILURE);
    };
    let text = fs::read(&rt, path)?;
    if run(&rt, stage, &text)? {
        Ok(ExitCode::SUCCESS)
    } else {
        Ok(ExitCode::FAILURE)
    }
}
