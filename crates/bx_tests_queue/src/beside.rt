//! A queue, and beside it a plain vector in the same order with a mark at each variable.
ghost use Rattle.std.specs.Prelude.{◌≡◌, ◌≤◌};

use bx_queue::MoveFront;
use std::alloc::Global;
use std::test::Fail;

/// Both, to which the same is done. What the queue requires is looked at in the marks.
#[derive(Drop)]
pub struct Beside {
    queue: MoveFront,
    order: Vec<u32>,
    taken: Vec<bool>,
    ghost marks: { queue.taken ≡ taken.items },
}

impl Beside {
    /// So many variables in ascending order, of which the first has this stamp.
    pub fn new(alloc: Global, vars: u32, stamp: u32) -> Result<Self, Fail>
        requires { vars ≤ stamp }
    {
        let queue = MoveFront::with_stamp(alloc, vars, stamp)?;
        let mut order = Vec::new(alloc);
        for before in 0..vars {
            order.push(before + 1)?;
        }
        let taken = vec![in alloc; false; vars as usize]?;
        Ok(Beside {
            queue,
            order,
            taken,
        })
    }

    /// Takes a variable that is free, and gives back one that is taken; another number does nothing.
    pub fn turn(&mut self, var: u32) {
        if var == 0 || var as usize > self.taken.len() {
            return;
        }
        if self.taken[var as usize - 1] {
            self.queue.freed(var);
            self.taken[var as usize - 1] = false;
        } else {
            self.queue.assigned(var);
            self.taken[var as usize - 1] = true;
        }
    }

    /// Moves a variable to the front; another number does nothing.
    pub fn to_front(&mut self, var: u32) -> Result<(), Fail> {
        if var == 0 || var as usize > self.taken.len() {
            return Ok(());
        }
        self.queue.to_front(var);
        if let Some(at) = self.order.iter().position(|other| *other == var) {
            let moved = self.order.remove(at);
            self.order.insert(0, moved)?;
        }
        Ok(())
    }

    /// Whether both find the same variable that is free, or none.
    pub fn is_alike(&mut self) -> bool {
        self.queue.first_unassigned() == self.first_free()
    }

    /// Whether both have all variables in the same order, once all of these are free. Takes each.
    pub fn ends_alike(&mut self, vars: u32) -> bool {
        for before in 0..vars {
            if self.is_taken(before + 1) {
                self.turn(before + 1);
            }
        }
        for _ in 0..vars {
            let first = self.first_free();
            if first.is_none() || self.queue.first_unassigned() != first {
                return false;
            }
            self.turn(first.unwrap_or(0));
        }
        self.is_alike()
    }

    // The first of the vector that isn't marked.
    fn first_free(&self) -> Option<u32> {
        for var in &self.order {
            if !self.is_taken(*var) {
                return Some(*var);
            }
        }
        None
    }

    fn is_taken(&self, var: u32) -> bool {
        match self.taken.get((var as usize).wrapping_sub(1)) {
            Some(taken) => *taken,
            None => true,
        }
    }
}
