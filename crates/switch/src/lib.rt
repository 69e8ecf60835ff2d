// The machine that switches between partitions (document 01, "The machine"): a state goes in by value, with one tick or one status; the
// next state comes back, with the call that the host is to make. An entry point is the guard, then the step, which stays private since it
// refuses nothing.
#![tactic(auto)]

ghost use Rattle.std.specs.Prelude.{◌≡◌};
ghost use Rattle.machine.specs.Machine.{tick_of, status_of};

use crate::step::{Timetable, status_at, tick_at};
use guard::{NotLetIn, guard};
use plan::Plan;
use state::{Answer, State};

mod step;

#[tactic(auto, using(machine::proofs::GuardLaws::plan_accepted, machine::proofs::MachineLaws::tick_refused, machine::proofs::MachineLaws::tick_let_in))]
pub fn tick(state: State, plan: &Plan<'_>, t: u32) -> Answer
    ensures { result ≡ tick_of plan.now state t }
{
    match guard(state, plan) {
        Ok(at) => {
            let tt = Timetable {
                length: plan.length(),
                count: at.count,
                windows: plan.windows(),
            };
            tick_at(state, at.stage, tt, t)
        }
        Err(NotLetIn { refusal, .. }) => state.refused(Err(refusal)),
    }
}

// Made part of its callers, so that an answer is not copied once more.
#[inline(always)]
#[tactic(auto, using(machine::proofs::MachineLaws::status_refused, machine::proofs::MachineLaws::status_let_in))]
pub fn status(state: State, plan: &Plan<'_>, word: u32) -> Answer
    ensures { result ≡ status_of plan.now state word }
{
    match guard(state, plan) {
        Ok(at) => status_at(state, at.stage, plan.windows(), word),
        Err(NotLetIn { refusal, .. }) => state.refused(Err(refusal)),
    }
}
