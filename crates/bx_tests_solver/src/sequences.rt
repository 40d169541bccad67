//! Long sequences of calls over drawn clauses: after each call the clause that `Watched` names is the one
//! that a scan of all clauses finds. Half of what is drawn assigns, so that trails grow to their ends and
//! back; clauses are of any length, the empty one and those of one literal among them.
ghost use Rattle.std.specs.Prelude.{◌<◌};

use crate::made::formula;
use crate::trial::Trial;
use crate::watch::agrees;
use std::alloc::Global;
use std::process::Abort;
use std::test::Fail;

const SEQUENCES: u64 = 2_000;

const CALLS: u64 = 40;

const VARS: u32 = 9;

// Numbers that are drawn, each from the one before (Knuth's multiplier for 64 bits).
#[derive(Drop)]
struct Draw {
    state: u64,
}

impl Draw {
    // A number below another one.
    fn below(&mut self, bound: u64) -> u64
        requires { 0 < bound }
        ensures { result < bound }
    {
        let product = self.state.wrapping_mul(6_364_136_223_846_793_005);
        self.state = product.wrapping_add(1_442_695_040_888_963_407);
        (self.state >> 33) % bound
    }

    // A literal over one of the variables, by its number.
    fn literal(&mut self) -> i32 {
        let var = self.below(u64::from(VARS)) as i32 + 1;
        if self.below(2) == 0 { var } else { -var }
    }

    // The numbers of a clause of which about one variable of so many has a literal.
    fn clause(&mut self, alloc: Global, one_of: u64) -> Result<Vec<i32>, Fail>
        requires { 0 < one_of }
    {
        let mut numbers = Vec::new(alloc);
        for before in 0..VARS as i32 {
            if self.below(one_of) == 0 {
                let var = before + 1;
                numbers.push(if self.below(2) == 0 { var } else { -var })?;
            }
        }
        Ok(numbers)
    }

    // The numbers of up to twelve clauses, each ended by 0.
    fn clauses(&mut self, alloc: Global) -> Result<Vec<i32>, Fail> {
        let mut numbers = Vec::new(alloc);
        for _ in 0..self.below(13) {
            let one_of = self.below(4) + 2;
            numbers.extend_from_slice(&self.clause(alloc, one_of)?)?;
            numbers.push(0)?;
        }
        Ok(numbers)
    }
}

// Does what is drawn: assigns a literal, frees a variable or adds a clause, if that may be done.
fn step<'a>(alloc: Global, trial: Trial<'a>, draw: &mut Draw) -> Result<Trial<'a>, Fail> {
    let chosen = draw.below(10);
    if chosen < 5 {
        let number = draw.literal();
        return if trial.is_free(number) {
            trial.assigned(number)
        } else {
            Ok(trial)
        };
    }
    if chosen < 9 {
        return if trial.is_empty() {
            Ok(trial)
        } else {
            trial.freed()
        };
    }
    let one_of = draw.below(4) + 2;
    trial.add(alloc, &draw.clause(alloc, one_of)?)
}

// One sequence of calls.
fn run(rt: &impl Abort, alloc: Global, seed: u64) -> Result<(), Fail> {
    let mut draw = Draw { state: seed };
    let clauses = formula(alloc, VARS, &draw.clauses(alloc)?)?;
    let mut trial = Trial::new(alloc, &clauses)?;
    agrees(rt, alloc, &trial)?;
    for _ in 0..CALLS {
        trial = step(alloc, trial, &mut draw)?;
        agrees(rt, alloc, &trial)?;
    }
    Ok(())
}

#[test]
fn two_thousand_sequences_of_calls_agree_with_the_scan(rt: HostRuntime) -> Result<(), Fail> {
    for seed in 0..SEQUENCES {
        run(&rt, rt.alloc(), seed)?;
    }
    Ok(())
}
