//! Many sequences of calls, each done to a queue and to a plain vector.

use crate::asserts::is_alike;
use crate::beside::Beside;
use std::alloc::Global;
use std::test::Fail;

const SEQUENCES: u32 = 2_000;

const CALLS: u32 = 40;

// Numbers that come from a seed alone, by a step of Knuth's congruential generator for 64 bits.
#[derive(Drop)]
struct Numbers {
    state: u64,
}

impl Numbers {
    // The next number from 1 to this one, which isn't 0.
    fn up_to(&mut self, most: u32) -> u32 {
        self.state = self
            .state
            .wrapping_mul(6_364_136_223_846_793_005)
            .wrapping_add(1_442_695_040_888_963_407);
        if most == 0 {
            return 0;
        }
        1 + ((self.state >> 33) % u64::from(most)) as u32
    }
}

// Whether a sequence does the same to both. In every second one the first variable's stamp is near the last
// number, so that a few moves number all anew.
fn is_sequence_alike(alloc: Global, seed: u32) -> Result<bool, Fail> {
    let vars = 1 + seed % 9;
    let stamp = if seed % 2 == 0 {
        vars
    } else {
        u32::MAX - seed % 8
    };
    let mut both = Beside::new(alloc, vars, stamp)?;
    let mut numbers = Numbers {
        state: u64::from(seed),
    };
    for _ in 0..CALLS {
        let var = numbers.up_to(vars);
        if numbers.up_to(3) == 1 {
            both.to_front(var)?;
        } else {
            both.turn(var);
        }
        if !both.is_alike() {
            return Ok(false);
        }
    }
    Ok(both.ends_alike(vars))
}

#[test]
fn a_queue_does_as_a_plain_vector(rt: HostRuntime) -> Result<(), Fail> {
    for seed in 0..SEQUENCES {
        is_alike(&rt, seed, is_sequence_alike(rt.alloc(), seed)?);
    }
    Ok(())
}
