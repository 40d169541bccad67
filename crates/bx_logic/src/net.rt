//! Nets of a module, each with what gives it its value. The type keeps that every number stands for
//! something, that each input drives one net, and that no net depends on itself. How a net comes from
//! a text is for the reader to say, and what values it gives for `eval`.
ghost use Rattle.std.specs.Prelude.{◌≡◌, ◌<◌, [], length, slice_index, slice_index_or};
ghost use Rattle.bx_logic.specs.Nets.{IsNet, netlist, driver_at, output_names, output_nets};

use crate::{Driver, Name};
use std::marker::Model;

/// A module's nets, with the names of its inputs and outputs. A net is known by its number, its place
/// in the list of drivers; an input and an output by its place in theirs.
#[derive(Drop)]
pub struct Net {
    name: Name,
    inputs: Vec<Name>,
    outputs: Vec<(Name, u32)>,
    drivers: Vec<Driver>,
}

impl Model for Net {
    ghost use Rattle.bx_logic.specs.Nets.{Netlist, IsNet, netlist};

    ghost Value = { Netlist };

    ghost view = { λ net. netlist net.name net.inputs.items net.outputs.items net.drivers.items };

    ghost invariant = { λ net.
        IsNet (netlist net.name net.inputs.items net.outputs.items net.drivers.items) };
}

impl Net {
    /// The net of these parts. Takes no memory.
    pub fn new(
        name: Name,
        inputs: Vec<Name>,
        outputs: Vec<(Name, u32)>,
        drivers: Vec<Driver>,
    ) -> Self
        requires { IsNet (netlist name inputs.items outputs.items drivers.items) }
        ensures { result ≡ netlist name inputs.items outputs.items drivers.items }
    {
        Net {
            name,
            inputs,
            outputs,
            drivers,
        }
    }

    /// The module's name.
    pub fn name(&self) -> &Name
        ensures { result.now ≡ self.now.name }
    {
        &self.name
    }

    /// How many inputs there are.
    pub fn input_count(&self) -> u32
        ensures count { result ≡ length self.now.inputs }
        ensures net { IsNet self.now }
    {
        self.inputs.len() as u32
    }

    /// The name of an input.
    pub fn input_name(&self, i: u32) -> &Name
        requires { i < length self.now.inputs }
        ensures { result.now ≡ slice_index_or self.now.inputs i [] }
    {
        &self.inputs[i as usize]
    }

    /// How many outputs there are.
    pub fn output_count(&self) -> u32
        ensures count { result ≡ length self.now.outputs }
        ensures net { IsNet self.now }
    {
        self.outputs.len() as u32
    }

    /// The name of an output.
    pub fn output_name(&self, j: u32) -> &Name
        requires { j < length self.now.outputs }
        ensures { result.now ≡ slice_index_or (output_names self.now) j [] }
    {
        &self.outputs[j as usize].0
    }

    /// The net whose value an output has.
    pub fn output_net(&self, j: u32) -> u32
        requires { j < length self.now.outputs }
        ensures { result ≡ slice_index (output_nets self.now) j }
    {
        self.outputs[j as usize].1
    }

    /// How many nets there are.
    pub fn len(&self) -> u32
        ensures count { result ≡ length self.now.drivers }
        ensures net { IsNet self.now }
    {
        self.drivers.len() as u32
    }

    /// What gives a net its value.
    pub fn driver(&self, net: u32) -> &Driver
        requires { net < length self.now.drivers }
        ensures { result.now ≡ driver_at self.now.drivers net }
    {
        &self.drivers[net as usize]
    }
}
