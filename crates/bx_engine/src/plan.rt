//! What is to be written and said of a module: the solution of its network, and the design of the layout that was
//! found. All the memory for them is taken here. Which layout is the first is for bx_design to say, and which dots it
//! has for bx_dots.
ghost use Rattle.std.specs.Prelude.{◌≤◌, length, IfOk, IfSome};
ghost use Rattle.bx_design.specs.Solutions.{IsSolution};
ghost use Rattle.bx_dots.specs.GridDots.{AreOffered};
ghost use Rattle.bx_dots.specs.Permits.{permit_of};
ghost use Rattle.bx_grid.specs.Orders.{IsRatio};
ghost use Rattle.bx_engine.specs.Answers.{Draws, IsDrawn};
ghost use Rattle.bx_engine.specs.Steps.{CanBeDrawn, HasPlaces};

use crate::limits::MODULE_NODES;
use crate::load::Module;
use bx_design::{LaidOut, Solution, find_design};
use bx_desk::Gate;
use bx_dots::dots_of;
use bx_layout::{FormGrid, Permit};
use bx_library::Library;
use bx_logic::NoMemory;
use bx_siqad::Design;
use bx_words::DesignCommand;
use std::alloc::Global;
use std::thread::Threads;

/// What came of a search, and the design of what was found.
#[derive(Drop)]
pub(crate) struct Plan {
    pub solution: Solution,
    pub design: Option<Design>,
}

/// The solution of a module's network by the forms of a library, with its design.
pub(crate) fn make_plan<T: Threads + Sync, G: Gate + Sync>(
    threads: &T,
    alloc: Global,
    command: &DesignCommand,
    source: &Module,
    library: &Library,
    gate: &G,
) -> Result<Plan, NoMemory>
    requires { length source.now.mapped.nodes ≤ MODULE_NODES }
    ensures solution { IfOk result (λ plan. IsSolution source.now.mapped (permit_of library.now)
        command.now.limits command.now.budget plan.solution.cert plan.solution.found) }
    ensures places { IfOk result (λ plan. HasPlaces source.now.mapped plan.solution.found) }
    ensures drawn { IfOk result (λ plan. IsDrawn library.now plan.solution.found plan.design) }
{
    let permit = Permit::same(library.offers());
    let solution = find_design(
        threads,
        alloc,
        &source.mapped,
        &permit,
        command.limits,
        command.budget,
        command.workers,
        gate,
    )?;
    let design = draw_found(alloc, library, &solution.found)?;
    Ok(Plan { solution, design })
}

// The design of a layout, if one was found.
fn draw_found(
    alloc: Global,
    library: &Library,
    found: &Option<LaidOut>,
) -> Result<Option<Design>, NoMemory>
    requires { IfSome found.now (CanBeDrawn library.now) }
    ensures { IfOk result (IsDrawn library.now found.now) }
{
    match found {
        Some(laid) => Ok(Some(draw(alloc, library, &laid.grid)?)),
        None => Ok(None),
    }
}

// The design of a grid of forms.
fn draw(alloc: Global, library: &Library, grid: &FormGrid) -> Result<Design, NoMemory>
    requires offered { AreOffered library.now grid.now }
    requires ratio { IsRatio grid.now.ratio }
    ensures { IfOk result (Draws library.now grid.now) }
{
    let dots = dots_of(alloc, library, grid)?;
    Ok(Design::new(grid.ratio(), dots))
}
