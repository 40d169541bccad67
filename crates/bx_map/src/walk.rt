//! The order of the walk over a net: each net that an output depends on, behind the nets that it reads.
//! A net is visited once, and the way to it is kept in a list, so that depth costs no more than width.
ghost use Rattle.std.specs.Prelude.{◌≡◌, ◌<◌, ◌++◌, [], ◌∷◌, suc, true, length, slice_set, All, IfOk, OnOk};
ghost use Rattle.bx_logic.specs.Nets.{IsNet, arguments_of, driver_at};
ghost use Rattle.bx_map.specs.Walks.{walk, visit};
ghost use Rattle.bx_map.specs.Marks.{AreMarks, frame_for};

use bx_logic::{Driver, Net, NoMemory};
use std::alloc::Global;

/// The nets in the order of the walk.
pub(crate) fn walk_order(alloc: Global, net: &Net) -> Result<Vec<u32>, NoMemory>
    ensures order { IfOk result (λ order. order.items ≡ walk net.now) }
    ensures within { IfOk result (λ order. All (λ n. n < length net.now.drivers) order.items) }
{
    let mut visited = Visited {
        order: Vec::new(alloc),
        left: vec![in alloc; false; net.len() as usize]?,
    };
    for j in 0..net.output_count() {
        visited.visit_from(alloc, net, net.output_net(j))?;
    }
    Ok(visited.order)
}

// The nets that were visited, in the order in which they were left, and whether each net was left.
#[derive(Drop)]
struct Visited {
    order: Vec<u32>,
    left: Vec<bool>,
}

impl Visited {
    // Visits a net, unless it was left already, and before it those that it depends on.
    fn visit_from(&mut self, alloc: Global, net: &Net, first: u32) -> Result<(), NoMemory>
        requires net { IsNet net.now }
        requires within { first < length net.now.drivers }
        requires marks { AreMarks (length net.now.drivers)
            self.old.order.items self.old.left.items }
        ensures marks { OnOk result (AreMarks (length net.now.drivers)
            self.new.order.items self.new.left.items) }
        ensures order { OnOk result (self.new.order.items
            ≡ visit net.now.drivers (suc (length net.now.drivers)) self.old.order.items first) }
    {
        let mut way = Vec::new(alloc);
        enter(&self.left, &mut way, first)?;
        while let Some(frame) = way.pop() {
            match arguments(net, frame.net).get(frame.next) {
                Some(argument) => {
                    way.push(Frame {
                        net: frame.net,
                        next: frame.next + 1,
                    })?;
                    enter(&self.left, &mut way, *argument)?;
                }
                None => self.leave(frame.net)?,
            }
        }
        Ok(())
    }

    // Puts a net behind those that were left.
    fn leave(&mut self, net: u32) -> Result<(), NoMemory>
        requires { net < length self.old.left.items }
        ensures order { OnOk result (self.new.order.items
            ≡ self.old.order.items ++ (net ∷ [])) }
        ensures left { OnOk result (self.new.left.items
            ≡ slice_set self.old.left.items net true) }
    {
        self.left[net as usize] = true;
        self.order.push(net)?;
        Ok(())
    }
}

// A net that was entered and is to be left, and how many of the nets that it reads were visited.
#[derive(Clone, Copy)]
struct Frame {
    net: u32,
    next: usize,
}

// Puts a frame for this net on the way, unless it was left.
fn enter(left: &[bool], way: &mut Vec<Frame>, net: u32) -> Result<(), NoMemory>
    requires { net < length left.now }
    ensures { OnOk result (way.new.items ≡ way.old.items ++ frame_for left.now net) }
{
    if !left[net as usize] {
        way.push(Frame { net, next: 0 })?;
    }
    Ok(())
}

// The nets that a net reads, in order.
fn arguments(net: &Net, n: u32) -> &[u32]
    requires { n < length net.now.drivers }
    ensures { result.now ≡ arguments_of (driver_at net.now.drivers n) }
{
    match net.driver(n) {
        Driver::Gate(_, args) => args.as_slice(),
        Driver::Input(_) | Driver::Constant(_) => &[],
    }
}
