//! The nets and networks of modules, and layouts as texts.
use bx_forms::{Form, FormSet};
use bx_lex::read_tokens;
use bx_logic::Net;
use bx_map::{MappedNet, map_net};
use bx_quick::{Quick, QuickFault, lay_quick};
use bx_syntax::{Module, read_module};
use bx_verilog::to_net;
use std::alloc::Global;
use std::test::Fail;

/// The most nodes that are laid out.
pub const MOST_NODES: u32 = 4096;

pub fn net_of(alloc: Global, text: &str) -> Result<Net, Fail> {
    match to_net(alloc, &module_of(alloc, text.as_bytes())?) {
        Ok(net) => Ok(net),
        Err(_) => Err("nothing is wrong with a module of the tests".into()),
    }
}

fn module_of(alloc: Global, text: &[u8]) -> Result<Module, Fail> {
    if text.len() >= 1 << 32 {
        return Err("a module of the tests is short".into());
    }
    let Ok(tokens) = read_tokens(alloc, text) else {
        return Err("a module of the tests has tokens".into());
    };
    match read_module(alloc, text, &tokens) {
        Ok(module) => Ok(module),
        Err(_) => Err("a text of the tests is a module".into()),
    }
}

pub fn network_of(alloc: Global, net: &Net) -> Result<MappedNet, Fail> {
    match map_net(alloc, net, MOST_NODES) {
        Ok(network) => Ok(network),
        Err(_) => Err("a module of the tests has a network".into()),
    }
}

/// The layout of a network with some nodes, or the text of why there is none.
pub fn laid(
    alloc: Global,
    net: &MappedNet,
    forms: FormSet,
    width: u32,
) -> Result<Result<Quick, String>, Fail> {
    if net.node_count() == 0 || net.node_count() > MOST_NODES || width == 0 || width > 64 {
        return Err("a network of the tests has some nodes, and a width is up to 64".into());
    }
    match lay_quick(alloc, net, forms, width) {
        Ok(quick) => Ok(Ok(quick)),
        Err(fault) => Ok(Err(fault_text(alloc, fault)?)),
    }
}

/// The forms without the one of this name.
pub fn without(name: &str) -> FormSet {
    let mut forms = FormSet::none();
    for form in Form::all() {
        if form.name() != name {
            forms = forms.with(form);
        }
    }
    forms
}

fn fault_text(alloc: Global, fault: QuickFault) -> Result<String, Fail> {
    match fault {
        QuickFault::TooWide(lanes) => Ok(format!(in alloc; "wide {lanes}")?),
        QuickFault::TooTall(rows) => Ok(format!(in alloc; "tall {rows}")?),
        QuickFault::NoForm(form) => Ok(format!(in alloc; "no form {}", form.name())?),
        QuickFault::NoMemory => Err("there is memory".into()),
    }
}
