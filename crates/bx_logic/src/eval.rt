//! The values of a net's outputs for given values of its inputs. A net is evaluated before what reads
//! it, each once, and the way to it is kept in a list, so that depth costs no more than width.
ghost use Rattle.std.specs.Prelude.{◌≡◌, ◌<◌, ◌++◌, [], length, OnOk, OnErr};
ghost use Rattle.bx_logic.specs.Nets.{IsNet};
ghost use Rattle.bx_logic.specs.Values.{AreOutputValues};
ghost use Rattle.bx_logic.specs.Known.{IsKnown, IsRight, KeepsKnown, frame_for};

use crate::gate::driven_value;
use crate::{Net, NoMemory};
use std::alloc::Global;

impl Net {
    /// Leaves in `out` the values of the outputs, in order, for these values of the inputs, in order.
    /// What stood in `out` is dropped, and after a refusal nothing stands there.
    pub fn eval(&self, alloc: Global, bits: &[bool], out: &mut Vec<bool>) -> Result<(), NoMemory>
        requires { length bits.now ≡ length self.now.inputs }
        ensures values { OnOk result (AreOutputValues self.now bits.now out.new.items) }
        ensures refused { OnErr result (out.new.items ≡ []) }
    {
        out.clear();
        let read = self.read_outputs(alloc, bits, out);
        if read.is_err() {
            out.clear();
        }
        read
    }

    // Puts the values of the outputs, in order, into an empty list.
    fn read_outputs(
        &self,
        alloc: Global,
        bits: &[bool],
        out: &mut Vec<bool>,
    ) -> Result<(), NoMemory>
        requires bits { length bits.now ≡ length self.now.inputs }
        requires empty { out.old.items ≡ [] }
        ensures { OnOk result (AreOutputValues self.now bits.now out.new.items) }
    {
        let mut values = vec![in alloc; None; self.len() as usize]?;
        let known = values.as_mut_slice();
        for j in 0..self.output_count() {
            let net = self.output_net(j);
            self.make_known(alloc, bits, known, net)?;
            out.push(known[net as usize].unwrap())?;
        }
        Ok(())
    }

    // Makes the value of a net known, and those of the nets that it depends on. A net is known before
    // what reads it.
    fn make_known(
        &self,
        alloc: Global,
        bits: &[bool],
        known: &mut [Option<bool>],
        net: u32,
    ) -> Result<(), NoMemory>
        requires net { IsNet self.now }
        requires bits { length bits.now ≡ length self.now.inputs }
        requires whole { length known.old ≡ length self.now.drivers }
        requires within { net < length self.now.drivers }
        requires right { IsRight self.now.drivers bits.now known.old }
        ensures right { IsRight self.now.drivers bits.now known.new }
        ensures kept { KeepsKnown known.old known.new }
        ensures known { OnOk result (IsKnown known.new net) }
    {
        let mut way = Vec::new(alloc);
        enter(known, &mut way, net)?;
        while let Some(frame) = way.pop() {
            let driver = self.driver(frame.net);
            match driver.arguments().get(frame.next) {
                Some(argument) => {
                    way.push(Frame {
                        net: frame.net,
                        next: frame.next + 1,
                    })?;
                    enter(known, &mut way, *argument)?;
                }
                None => {
                    let value = driven_value(driver, bits, known);
                    known[frame.net as usize] = Some(value);
                }
            }
        }
        Ok(())
    }
}

// A net on the way to its value, and how many of the nets that it reads have been looked at.
#[derive(Clone, Copy)]
struct Frame {
    net: u32,
    next: usize,
}

// Puts a frame for this net on the way, unless its value is known.
fn enter(known: &[Option<bool>], way: &mut Vec<Frame>, net: u32) -> Result<(), NoMemory>
    requires { net < length known.now }
    ensures { OnOk result (way.new.items ≡ way.old.items ++ frame_for known.now net) }
{
    if known[net as usize].is_none() {
        way.push(Frame { net, next: 0 })?;
    }
    Ok(())
}
