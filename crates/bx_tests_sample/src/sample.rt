//! Samples from numbers: the texts, and the networks that they are read to be.

use crate::asserts::{are_numbers, are_values, is_number_in_row, is_text};
use crate::mixed::mixed;
use bx_lex::read_tokens;
use bx_logic::Net;
use bx_map::{MappedNet, map_net};
use bx_sample::sample_text;
use bx_syntax::{Module, read_module};
use bx_verilog::to_net;
use std::alloc::Global;
use std::test::Fail;

// One gate of 1, and three gates of 7 with two extra ones, worked out by hand.
const ONE: &str = "module sample(i0, i1, i2, i3, o0);
input i0, i1, i2, i3;
output o0;
nor (g0, i2, i1);
assign o0 = g0;
endmodule
";

const THREE: &str = "module sample(i0, i1, i2, i3, o0, o1);
input i0, i1, i2, i3;
output o0, o1;
not (g0, i2);
xor (g1, g0, i1);
xnor (g2, i0, i2);
xnor (x0, i0, g2);
nand (x1, g2, i2);
assign o0 = g2;
assign o1 = g1;
endmodule
";

#[test]
fn small_samples_are_as_their_rule_says(rt: HostRuntime) -> Result<(), Fail> {
    let alloc = rt.alloc();
    is_text(&rt, &sample_text(alloc, 1, 1, 0)?, ONE);
    is_text(&rt, &sample_text(alloc, 7, 3, 2)?, THREE);
    Ok(())
}

// A number, so many gates and so many extra ones, at the ends of their ranges; and the length of the text, the sum of
// its bytes, and what they are mixed to.
const ENDS: &[(u32, u32, u32, u64, u64, u64)] = &[
    (0, 1, 0, 112, 8253, 140_600_567),
    (0, 32, 10_000, 252_763, 15_646_269, 3_709_821_717),
    (1, 1, 10_000, 252_359, 15_619_250, 1_787_663_482),
    (1, 2, 0, 153, 10_959, 2_202_229_701),
    (2_147_483_647, 1, 0, 112, 8294, 383_929_936),
    (
        2_147_483_647,
        32,
        10_000,
        253_070,
        15_658_533,
        1_297_262_191,
    ),
    (2_147_483_647, 2, 1, 169, 12_078, 153_809_604),
    (2_147_483_646, 31, 9999, 253_353, 15_682_151, 2_493_504_601),
    (0, 2, 1, 171, 12_086, 703_028_266),
    (1_073_741_824, 32, 0, 720, 46_431, 1_672_455_983),
];

#[test]
fn samples_at_the_ends_of_the_ranges(rt: HostRuntime) -> Result<(), Fail> {
    for &(number, gates, extra, length, sum, mix) in ENDS {
        let text = text_of(rt.alloc(), number, gates, extra)?;
        are_numbers(&rt, &mixed(rt.alloc(), &text)?, &[length, sum, mix]);
    }
    Ok(())
}

// A number, so many gates and so many extra ones; and the nodes and the edges of the network. Extra gates reach no
// output, and have no part in it.
const NETWORKS: &[(u32, u32, u32, u64, u64)] = &[
    (1, 1, 0, 4, 3),
    (1, 1, 10_000, 4, 3),
    (7, 3, 2, 9, 8),
    (5, 6, 1, 8, 7),
];

#[test]
fn samples_are_read_to_be_networks(rt: HostRuntime) -> Result<(), Fail> {
    for (row, &(number, gates, extra, nodes, edges)) in NETWORKS.iter().enumerate() {
        let text = text_of(rt.alloc(), number, gates, extra)?;
        let network = network_of(rt.alloc(), &text)?;
        is_number_in_row(&rt, row, u64::from(network.node_count()), nodes);
        is_number_in_row(&rt, row, u64::from(network.edge_count()), edges);
    }
    Ok(())
}

const BITS: [bool; 2] = [false, true];

// Of the three gates of 7 the last one, the first output, is 1 where `i0` and `i2` are equal, and the second output
// where `i1` and `i2` are.
#[test]
fn a_sample_computes_what_its_gates_do(rt: HostRuntime) -> Result<(), Fail> {
    let net = net_of(rt.alloc(), &text_of(rt.alloc(), 7, 3, 2)?)?;
    for first in BITS {
        for second in BITS {
            for third in BITS {
                let found = outputs(rt.alloc(), &net, &[first, second, third, true])?;
                are_values(&rt, "7", &found, &[first == third, second == third]);
            }
        }
    }
    Ok(())
}

// The values of the outputs for values of the inputs.
fn outputs(alloc: Global, net: &Net, bits: &[bool]) -> Result<Vec<bool>, Fail> {
    if bits.len() != net.input_count() as usize {
        return Err("a sample has four inputs".into());
    }
    let mut values = Vec::new(alloc);
    net.eval(alloc, bits, &mut values)?;
    Ok(values)
}

fn text_of(alloc: Global, number: u32, gates: u32, extra: u32) -> Result<Vec<u8>, Fail> {
    if number >= 1 << 31 || gates < 1 || gates > 32 || extra > 10_000 {
        return Err("a row of the tests is within the ranges".into());
    }
    Ok(sample_text(alloc, number, gates, extra)?)
}

fn network_of(alloc: Global, text: &[u8]) -> Result<MappedNet, Fail> {
    let net = net_of(alloc, text)?;
    match map_net(alloc, &net, 96) {
        Ok(network) => Ok(network),
        Err(_) => Err("a sample of the tests has a network".into()),
    }
}

fn net_of(alloc: Global, text: &[u8]) -> Result<Net, Fail> {
    match to_net(alloc, &module_of(alloc, text)?) {
        Ok(net) => Ok(net),
        Err(_) => Err("nothing is wrong with a sample".into()),
    }
}

fn module_of(alloc: Global, text: &[u8]) -> Result<Module, Fail> {
    if text.len() >= 1 << 32 {
        return Err("a sample is short".into());
    }
    let Ok(tokens) = read_tokens(alloc, text) else {
        return Err("a sample has tokens".into());
    };
    match read_module(alloc, text, &tokens) {
        Ok(module) => Ok(module),
        Err(_) => Err("a sample is a module".into()),
    }
}
