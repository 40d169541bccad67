//! Up to which net the ranks of the components show that none depends on itself. The module is public
//! for the tests alone: they look for a list of nets whose ranks don't lead to the least net on a cycle
//! at once. Callers ask for that net.
ghost use Rattle.std.specs.Prelude.{◌≡◌, ℕ, ◌<◌, ◌≤◌, ◌↔◌, All, length, slice_index, IsTrue};
ghost use Rattle.bx_logic.specs.Nets.{DependsOn};
ghost use Rattle.bx_logic.specs.Cycles.{ReadsNetsOnly, NeverRises, FallsFrom};

use crate::Driver;
use crate::components::arguments_at;
pub use crate::components::component_ranks;

/// How many nets from the first on the ranks show not to depend on themselves: where no net reads one
/// of a greater rank, no way leads back to a net that reads smaller ranks alone.
pub fn ranked_until(drivers: &[Driver], ranks: &[u32]) -> u32
    requires few { length drivers.now < 4294967296 }
    requires reads { ReadsNetsOnly drivers.now }
    requires ranks { length ranks.now ≡ length drivers.now }
    ensures within { result ≤ length drivers.now }
    ensures acyclic { (n : ℕ) → n < result → DependsOn drivers.now n n → ⊥ }
    ensures level { NeverRises drivers.now ranks.now → result < length drivers.now
        → FallsFrom drivers.now ranks.now result → ⊥ }
{
    if never_rises(drivers, ranks) {
        first_level(drivers, ranks)
    } else {
        0
    }
}

// Whether no net reads one of a greater rank.
fn never_rises(drivers: &[Driver], ranks: &[u32]) -> bool
    requires few { length drivers.now < 4294967296 }
    requires reads { ReadsNetsOnly drivers.now }
    requires ranks { length ranks.now ≡ length drivers.now }
    ensures { IsTrue result ↔ NeverRises drivers.now ranks.now }
{
    for net in 0..drivers.len() as u32 {
        if !all_at_most(ranks, arguments_at(drivers, net), ranks[net as usize]) {
            return false;
        }
    }
    true
}

// Whether each of these nets has at most this rank.
fn all_at_most(ranks: &[u32], nets: &[u32], rank: u32) -> bool
    requires { All (λ m. m < length ranks.now) nets.now }
    ensures { IsTrue result ↔ All (λ m. slice_index ranks.now m ≤ rank) nets.now }
{
    nets.iter().all(|net| ranks[*net as usize] <= rank)
}

// The first net that reads one of no smaller rank, or the number of nets.
fn first_level(drivers: &[Driver], ranks: &[u32]) -> u32
    requires few { length drivers.now < 4294967296 }
    requires reads { ReadsNetsOnly drivers.now }
    requires ranks { length ranks.now ≡ length drivers.now }
    ensures within { result ≤ length drivers.now }
    ensures falls { (n : ℕ) → n < result → FallsFrom drivers.now ranks.now n }
    ensures level { result < length drivers.now → FallsFrom drivers.now ranks.now result → ⊥ }
{
    let nets = drivers.len() as u32;
    for net in 0..nets {
        if !all_below(ranks, arguments_at(drivers, net), ranks[net as usize]) {
            return net;
        }
    }
    nets
}

// Whether each of these nets has a smaller rank.
fn all_below(ranks: &[u32], nets: &[u32], rank: u32) -> bool
    requires { All (λ m. m < length ranks.now) nets.now }
    ensures { IsTrue result ↔ All (λ m. slice_index ranks.now m < rank) nets.now }
{
    nets.iter().all(|net| ranks[*net as usize] < rank)
}
