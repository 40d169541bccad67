//! What is wrong with a module by the uses of its names. It promises the first of those faults, and that
//! where there is none every name that needs a driver has exactly one; whether a name depends on itself
//! is for others to say.
ghost use Rattle.std.specs.Prelude.{◌≡◌, ◌≢◌, None, length, nat_lt, position, IfErr, OnOk};
ghost use Rattle.std.specs.List.{list_any};
ghost use Rattle.bx_syntax.specs.Parts.{ModuleTree};
ghost use Rattle.bx_verilog.specs.Faults.{IsDriven, IsFault};
ghost use Rattle.bx_verilog.specs.Flaws.{IsFirst, fault_of, shows};
ghost use Rattle.bx_verilog.specs.Uses.{AreUses};

use crate::fault::NetFault;
use crate::names::{Names, copy};
use crate::uses::Uses;
use bx_logic::Name;
use std::alloc::Global;

/// Refuses a module whose names have these uses, if one of them is wrong or no port is an output.
///
/// # Errors
///
/// The first fault of the module, or `NoMemory`.
pub(crate) fn check(alloc: Global, names: &Names, uses: &[Uses]) -> Result<(), NetFault>
    requires { length uses.now ≡ length names.now }
    ensures driven { OnOk result ((m : ModuleTree) → AreUses m names.now uses.now → IsDriven m) }
    ensures faults { IfErr result
        (λ fault. fault ≢ NetFault.NoMemory →
        (m : ModuleTree) → AreUses m names.now uses.now → IsFault m fault) }
{
    Flaw::Port.rule_out(alloc, names, uses)?;
    if !has_output(uses) {
        return Err(NetFault::NoOutput);
    }
    Flaw::Drivers.rule_out(alloc, names, uses)?;
    Flaw::Undriven.rule_out(alloc, names, uses)
}

// What can be wrong with a name.
#[derive(Clone, Copy)]
enum Flaw {
    // It stands twice in the header, has two directions, stands in the header without one, or has one
    // and doesn't stand there.
    Port,
    // Two things drive it.
    Drivers,
    // It is read or is an output, and nothing drives it.
    Undriven,
}

impl Flaw {
    // Refuses the first name that has it, by its fault.
    fn rule_out(self, alloc: Global, names: &Names, uses: &[Uses]) -> Result<(), NetFault>
        requires { length uses.now ≡ length names.now }
        ensures none { OnOk result (position (shows self) uses.now ≡ None) }
        ensures first { IfErr result
            (λ fault. fault ≢ NetFault.NoMemory → IsFirst self names.now uses.now fault) }
    {
        for number in 0..names.len() {
            if self.is_in(&uses[number as usize]) {
                return Err(self.fault(copy(alloc, names.name(number))?));
            }
        }
        Ok(())
    }

    // Whether it is wrong with a name that has these uses.
    fn is_in(self, uses: &Uses) -> bool
        ensures { result ≡ shows self uses.now }
    {
        match self {
            Flaw::Port => uses.header > 1 || uses.directed > 1 || uses.header != uses.directed,
            Flaw::Drivers => uses.driven > 1,
            Flaw::Undriven => (uses.read > 0 || uses.output > 0) && uses.driven == 0,
        }
    }

    // The fault of the name that has it.
    fn fault(self, name: Name) -> NetFault
        ensures { result ≡ fault_of self name }
    {
        match self {
            Flaw::Port => NetFault::BadPort(name),
            Flaw::Drivers => NetFault::TwoDrivers(name),
            Flaw::Undriven => NetFault::NoDriver(name),
        }
    }
}

// Whether one of the names is an output.
fn has_output(uses: &[Uses]) -> bool
    ensures { result ≡ list_any (λ u. nat_lt 0 u.output) uses.now }
{
    uses.iter().any(|u| u.output > 0)
}
