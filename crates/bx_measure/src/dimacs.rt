//! The formula of a network on a grid in the format of DIMACS, so that any SAT solver can be asked about it.
ghost use Rattle.std.specs.Prelude.{◌≤◌, OnOk, length};
ghost use Rattle.bx_grid.specs.Tiles.{tile_count, IsGrid};

use bx_cnf::{Clauses, Lit};
use bx_encode::{MOST_AREA, MOST_NODES, encode};
use bx_forms::{Form, FormSet};
use bx_grid::Ratio;
use bx_layout::Permit;
use bx_map::MappedNet;
use std::alloc::{AllocError, Global};
use std::io;

// After so many bytes the text is handed out.
const CHUNK: usize = 65_536;

/// Says the formula under the permit of all forms, or why there is none.
pub fn say_dimacs(rt: &HostRuntime, network: &MappedNet, ratio: Ratio) -> io::Result<bool> {
    match formula(rt.alloc(), network, ratio)? {
        Ok(clauses) => {
            let (vars, count) = (clauses.vars(), clauses.len());
            println!(rt; "p cnf {vars} {count}")?;
            say_clauses(rt, &clauses)?;
            Ok(true)
        }
        Err(reason) => {
            println!(rt; "{reason}")?;
            Ok(false)
        }
    }
}

/// The formula under the permit of all forms, or why there is none.
pub(crate) fn formula(
    alloc: Global,
    network: &MappedNet,
    ratio: Ratio,
) -> Result<Result<Clauses, &'static str>, AllocError> {
    match within_limits(network, ratio) {
        Ok(()) => match encode(alloc, network, &all_forms(), ratio) {
            Ok(clauses) => Ok(Ok(clauses)),
            Err(_) => Err(AllocError),
        },
        Err(reason) => Ok(Err(reason)),
    }
}

// Whether there is a formula of the network on the grid. Else the reason is said.
fn within_limits(network: &MappedNet, ratio: Ratio) -> Result<(), &'static str>
    ensures grid { OnOk result (IsGrid ratio) }
    ensures nodes { OnOk result (length network.now.nodes ≤ MOST_NODES) }
    ensures area { OnOk result (tile_count ratio ≤ MOST_AREA) }
{
    if ratio.w == 0 || ratio.h == 0 {
        return Err("there are no tiles");
    }
    if u64::from(ratio.w) * u64::from(ratio.h) > u64::from(MOST_AREA) {
        return Err("there are more than 144 tiles");
    }
    if network.node_count() > MOST_NODES {
        return Err("there are more than 96 nodes");
    }
    Ok(())
}

fn all_forms() -> Permit {
    let mut forms = FormSet::none();
    for number in 0..u8::MAX {
        if let Some(form) = Form::from_number(number) {
            forms = forms.with(form);
        }
    }
    Permit::same(forms)
}

// Says each clause in a line that 0 ends.
fn say_clauses(rt: &HostRuntime, clauses: &Clauses) -> io::Result<()> {
    let mut text = String::new(rt.alloc());
    for k in 0..clauses.len() {
        put_clause(clauses.clause(k + 1), &mut text)?;
        if text.len() >= CHUNK {
            print!(rt; "{text}")?;
            text.clear();
        }
    }
    print!(rt; "{text}")?;
    Ok(())
}

fn put_clause(clause: &[Lit], text: &mut String) -> Result<(), AllocError> {
    for lit in clause {
        let number = lit.number();
        write!(text, "{number} ")?;
    }
    text.push_str("0\n")?;
    Ok(())
}
