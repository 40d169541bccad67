//! The least-numbered net that depends on itself. One that only reads such a net, or lies between two
//! cycles, is none. The ranks of the components show up to which net there is none, in time linear in
//! nets and arguments, and a walk from that net finds a way back to it. The clauses rest on the check
//! of the ranks and on the walk alone: were the ranks wrong, the nets after it would be walked from in
//! turn, in quadratic time, for the same answer. The tests look for such a case and find none.
ghost use Rattle.std.specs.Prelude.{◌<◌, ◌↔◌, length, IfOk, IfSome, IsTrue, MatchOption};
ghost use Rattle.bx_logic.specs.Nets.{DependsOn, IsAcyclic};
ghost use Rattle.bx_logic.specs.Cycles.{ReadsNetsOnly, IsLeastOnCycle};

use crate::components::arguments_at;
use crate::ranks::{component_ranks, ranked_until};
use crate::{Driver, NoMemory};
use std::alloc::Global;

/// The least-numbered net that depends on itself, if one does.
pub fn least_net_on_cycle(alloc: Global, drivers: &[Driver]) -> Result<Option<u32>, NoMemory>
    requires few { length drivers.now < 4294967296 }
    requires reads { ReadsNetsOnly drivers.now }
    ensures least { IfOk result (λ found.
        MatchOption found (IsAcyclic drivers.now) (IsLeastOnCycle drivers.now)) }
    ensures within { IfOk result (λ found. IfSome found (λ net. net < length drivers.now)) }
{
    let ranks = component_ranks(alloc, drivers)?;
    for net in ranked_until(drivers, &ranks)..drivers.len() as u32 {
        if is_on_cycle(alloc, drivers, net)? {
            return Ok(Some(net));
        }
    }
    Ok(None)
}

// Whether a net depends on itself: each net that it depends on is visited once.
fn is_on_cycle(alloc: Global, drivers: &[Driver], start: u32) -> Result<bool, NoMemory>
    requires reads { ReadsNetsOnly drivers.now }
    requires start { start < length drivers.now }
    ensures { IfOk result (λ found. IsTrue found ↔ DependsOn drivers.now start start) }
{
    let mut seen = vec![in alloc; false; drivers.len()]?;
    let mut pending = arguments_at(drivers, start).to_vec(alloc)?;
    while let Some(net) = pending.pop() {
        if seen[net as usize] {
            continue;
        }
        seen[net as usize] = true;
        pending.extend_from_slice(arguments_at(drivers, net))?;
    }
    Ok(seen[start as usize])
}
