//! The values of the outputs: the cell of each, or the first output that folds to a constant.
ghost use Rattle.std.specs.Prelude.{◌≡◌, length, MatchResult};
ghost use Rattle.bx_map.specs.Folds.{folding};
ghost use Rattle.bx_map.specs.Maps.{AreSignals};
ghost use Rattle.bx_map.specs.Refusals.{IsNoCells};

use crate::cell::Value;
use crate::cells::NoCells;
use bx_logic::Net;
use std::alloc::Global;

/// The cell whose value each output has, in port order, by the values of the nets.
pub(crate) fn output_cells(
    alloc: Global,
    net: &Net,
    values: &[Value],
) -> Result<Vec<usize>, NoCells>
    requires values { values.now ≡ (folding net.now).values }
    requires whole { length values.now ≡ length net.now.drivers }
    ensures { MatchResult result (λ outputs. AreSignals net.now outputs.items)
        (IsNoCells net.now) }
{
    let mut outputs = Vec::new(alloc);
    for j in 0..net.output_count() {
        match values[net.output_net(j) as usize] {
            Value::Constant(_) => return Err(NoCells::Constant(j)),
            Value::Signal(cell) => outputs.push(cell)?,
        }
    }
    Ok(outputs)
}
