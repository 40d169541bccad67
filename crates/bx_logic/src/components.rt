//! A rank for each net, from the strongly connected components of the relation that a net reads
//! another: the nets of a component have one rank, and what they read outside of it has smaller ones.
//! The components are found by Tarjan's search, in time linear in nets and arguments, with the nets
//! still to be entered and left in a list, so that depth costs no more than width. The clauses promise
//! a rank for each net and no more: who uses the ranks is to check them.
ghost use Rattle.std.specs.List.{range_with_len};
ghost use Rattle.std.specs.Prelude.{◌≡◌, ◌<◌, ◌++◌, [], ◌∷◌, true, false, slice_set, All, IfOk, IsTrue, OnOk, length, map, vec_len};
ghost use Rattle.bx_logic.specs.declared.components.Step.TheVariants.{Enter};
ghost use Rattle.bx_logic.specs.Nets.{arguments_of, driver_at};
ghost use Rattle.bx_logic.specs.Cycles.{ReadsNetsOnly};
ghost use Rattle.bx_logic.specs.Components.{IsSearch, visit_of, was_seen, AreComponents, IsLowestPlace};

use crate::{Driver, NoMemory};
use std::alloc::Global;

/// A rank for each net. No net reads one of a greater rank, and a net that does not depend on itself
/// reads only nets of smaller ones; neither is promised by a clause.
pub fn component_ranks(alloc: Global, drivers: &[Driver]) -> Result<Vec<u32>, NoMemory>
    requires few { length drivers.now < 4294967296 }
    requires reads { ReadsNetsOnly drivers.now }
    ensures { IfOk result (λ ranks. vec_len ranks ≡ length drivers.now) }
{
    let mut search = Search::new(alloc, drivers.len() as u32)?;
    while let Some(step) = search.steps.pop() {
        match step {
            Step::Enter(net) => search.enter(net, arguments_at(drivers, net))?,
            Step::Leave(net) => search.components.leave(net, arguments_at(drivers, net)),
        }
    }
    Ok(search.components.ranks)
}

// A search for the components of so many nets: what it knows, the nets that it has entered, and the
// steps that are still to come, the next one last.
#[derive(Drop)]
struct Search {
    components: Components,
    seen: Vec<bool>,
    steps: Vec<Step>,
}

impl Search {
    // Each net is still to be entered.
    fn new(alloc: Global, nets: u32) -> Result<Self, NoMemory>
        ensures { IfOk result (λ search. IsSearch nets search) }
    {
        let components = Components::new(alloc, nets as usize)?;
        let seen = vec![in alloc; false; nets as usize]?;
        let steps = all_entries(alloc, nets)?;
        Ok(Search {
            components,
            seen,
            steps,
        })
    }

    // Enters a net that reads these, unless it was entered before.
    fn enter(&mut self, net: u32, arguments: &[u32]) -> Result<(), NoMemory>
        requires search { IsSearch (length self.old.seen.items) self.old }
        requires within { net < length self.old.seen.items }
        requires arguments { All (λ m. m < length self.old.seen.items) arguments.now }
        ensures search { OnOk result (IsSearch (length self.old.seen.items) self.new) }
        ensures again { IsTrue (was_seen self.old.seen.items net) → self.new ≡ self.old }
        ensures seen { OnOk result (was_seen self.old.seen.items net ≡ false
            → self.new.seen.items ≡ slice_set self.old.seen.items net true) }
        ensures steps { OnOk result (was_seen self.old.seen.items net ≡ false
            → self.new.steps.items ≡ self.old.steps.items ++ visit_of net arguments.now) }
    {
        if self.seen[net as usize] {
            return Ok(());
        }
        self.seen[net as usize] = true;
        self.components.enter(net)?;
        push_visit(&mut self.steps, net, arguments)
    }
}

// A step of the search that is still to come.
#[derive(Clone, Copy)]
enum Step {
    Enter(u32),
    Leave(u32),
}

// The steps to enter each of so many nets.
fn all_entries(alloc: Global, nets: u32) -> Result<Vec<Step>, NoMemory>
    ensures { IfOk result (λ steps. steps.items ≡ map Enter (range_with_len 0 nets)) }
{
    let mut steps = Vec::new(alloc);
    for net in 0..nets {
        steps.push(Step::Enter(net))?;
    }
    Ok(steps)
}

// Puts last the steps to enter these nets and then to leave the net that reads them.
fn push_visit(steps: &mut Vec<Step>, net: u32, arguments: &[u32]) -> Result<(), NoMemory>
    ensures { OnOk result (steps.new.items ≡ steps.old.items ++ visit_of net arguments.now) }
{
    steps.push(Step::Leave(net))?;
    for argument in arguments {
        steps.push(Step::Enter(*argument))?;
    }
    Ok(())
}

// What the search knows of the components so far. A net is open from when it is entered until its
// component is closed, which is when the first net of the component is left.
#[derive(Drop)]
struct Components {
    // Of each open net, a place among the open nets: its own, or, once it is left, a smaller one of
    // its component.
    places: Vec<Option<usize>>,
    // Of each net, its rank once its component is closed.
    ranks: Vec<u32>,
    // The open nets, in the order in which they were entered.
    open_nets: Vec<u32>,
    // How many components are closed, which is the rank of the next one.
    closed: u32,
}

impl Components {
    // No net is open, and no component closed.
    fn new(alloc: Global, nets: usize) -> Result<Self, NoMemory>
        ensures { IfOk result (λ components. AreComponents nets components) }
    {
        Ok(Components {
            places: vec![in alloc; None; nets]?,
            ranks: vec![in alloc; 0; nets]?,
            open_nets: Vec::new(alloc),
            closed: 0,
        })
    }

    // Opens a net.
    fn enter(&mut self, net: u32) -> Result<(), NoMemory>
        requires components { AreComponents (length self.old.places.items) self.old }
        requires within { net < length self.old.places.items }
        ensures components { OnOk result (AreComponents (length self.old.places.items) self.new) }
        ensures place { OnOk result (self.new.places.items
            ≡ slice_set self.old.places.items net (Some (vec_len self.old.open_nets))) }
        ensures opened { OnOk result (self.new.open_nets.items
            ≡ self.old.open_nets.items ++ (net ∷ [])) }
    {
        self.places[net as usize] = Some(self.open_nets.len());
        self.open_nets.push(net)?;
        Ok(())
    }

    // Leaves an open net, once all that it reads was entered: it is the first of its component where
    // it reaches no open net before it.
    fn leave(&mut self, net: u32, arguments: &[u32])
        requires components { AreComponents (length self.old.places.items) self.old }
        requires within { net < length self.old.places.items }
        requires arguments { All (λ m. m < length self.old.places.items) arguments.now }
        ensures { AreComponents (length self.old.places.items) self.new }
    {
        if let Some(place) = self.places[net as usize] {
            let lowest = lowest_place(&self.places, arguments, place);
            if lowest < place {
                self.places[net as usize] = Some(lowest);
            } else {
                self.close(net);
            }
        }
    }

    // Closes the component of a net, whose nets are the open ones from this net on.
    fn close(&mut self, first: u32)
        requires { AreComponents (length self.old.places.items) self.old }
        ensures { AreComponents (length self.old.places.items) self.new }
    {
        while let Some(net) = self.open_nets.pop() {
            self.places[net as usize] = None;
            self.ranks[net as usize] = self.closed;
            if net == first {
                break;
            }
        }
        self.closed = self.closed.saturating_add(1);
    }
}

// The smallest of this place and the places of the open nets among these.
fn lowest_place(places: &[Option<usize>], nets: &[u32], place: usize) -> usize
    requires { All (λ m. m < length places.now) nets.now }
    ensures { IsLowestPlace places.now nets.now place result }
{
    let mut lowest = place;
    for net in nets {
        lowest = lowest.min(places[*net as usize].unwrap_or(lowest));
    }
    lowest
}

/// The nets that a net reads.
pub(crate) fn arguments_at(drivers: &[Driver], net: u32) -> &[u32]
    requires reads { ReadsNetsOnly drivers.now }
    requires net { net < length drivers.now }
    ensures reads { result.now ≡ arguments_of (driver_at drivers.now net) }
    ensures within { All (λ m. m < length drivers.now) result.now }
{
    drivers[net as usize].arguments()
}
