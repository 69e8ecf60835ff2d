// The demands as promises. The two functions do nothing: their contracts say that the demands hold of whatever can be lent and handed in, so
// that no premise about 32-bit numbers is left to a reader.
#![tactic(auto)]

ghost use Rattle.promise.specs.Lent.{HoldsOfPlan, HoldsOfState};

use plan::Plan;
use records::lent;
use state::State;

pub fn of_any_plan(plan: &Plan<'_>)
    ensures { HoldsOfPlan plan.now }
{
    lent(plan.rows());
}

pub fn of_any_state(plan: &Plan<'_>, state: State)
    ensures { HoldsOfState plan.now state }
{
    plan.length();
    state.phase.kept_word();
}
