//! The variables in the order of their last part in a conflict: the next decision is the free one that
//! stands furthest behind (variable move to front after Ryan, 2004; kept as Biere and Fröhlich, 2015,
//! with a place from which the search for a free one goes on).

use crate::table::{at, put};
use bx_logic::NoMemory;
use std::alloc::Global;

/// A ring through 0 of all variables.
#[derive(Drop)]
pub(crate) struct Queue {
    // by variable: the one that stands before it and the one behind it
    before: Vec<u32>,
    behind: Vec<u32>,
    // by variable: rises along the queue
    stamps: Vec<u64>,
    stamp: u64,
    // no variable behind it is free
    place: u32,
}

impl Queue {
    /// The variables in ascending order, so that the last of them is decided first.
    pub(crate) fn new(alloc: Global, vars: u32) -> Result<Self, NoMemory> {
        let mut before = Vec::with_capacity(alloc, vars as usize + 1)?;
        let mut behind = Vec::with_capacity(alloc, vars as usize + 1)?;
        let mut stamps = Vec::with_capacity(alloc, vars as usize + 1)?;
        before.push(vars)?;
        behind.push(vars.min(1))?;
        stamps.push(0)?;
        for k in 0..vars {
            before.push(k)?;
            behind.push(if k + 1 == vars { 0 } else { k.wrapping_add(2) })?;
            stamps.push(u64::from(k))?;
        }
        Ok(Queue {
            before,
            behind,
            stamps,
            stamp: u64::from(vars),
            place: vars,
        })
    }

    /// The variable at which the search for a free one stands, 0 at its end.
    pub(crate) fn place(&self) -> u32 {
        self.place
    }

    /// Goes on to the variable before.
    pub(crate) fn step(&mut self) {
        self.place = at(&self.before, self.place, 0);
    }

    /// A number that sorts variables as they stand.
    pub(crate) fn key(&self, var: u32) -> u64 {
        at(&self.stamps, var, 0) << 31 | u64::from(var)
    }

    /// A variable became free.
    pub(crate) fn freed(&mut self, var: u32) {
        if at(&self.stamps, var, 0) > at(&self.stamps, self.place, 0) || self.place == 0 {
            self.place = var;
        }
    }

    /// Moves a variable behind all others.
    pub(crate) fn bump(&mut self, var: u32, is_free: bool) {
        let before = at(&self.before, var, 0);
        let behind = at(&self.behind, var, 0);
        if self.place == var {
            self.place = if before == 0 {
                at(&self.before, 0, 0)
            } else {
                before
            };
        }
        put(&mut self.behind, before, behind);
        put(&mut self.before, behind, before);
        let last = at(&self.before, 0, 0);
        put(&mut self.behind, last, var);
        put(&mut self.before, var, last);
        put(&mut self.behind, var, 0);
        put(&mut self.before, 0, var);
        self.stamp = self.stamp.wrapping_add(1);
        put(&mut self.stamps, var, self.stamp);
        if is_free {
            self.place = var;
        }
    }
}
