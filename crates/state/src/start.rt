// The first state, which belongs to its type (document 01, "The machine": "Cold start").
ghost use Rattle.std.specs.Prelude.{◌≡◌};
ghost use Rattle.state.specs.Start.{cold_move, cold_of};

use crate::{Answer, State};
use plan::Plan;
use protocol::{Call, Stage};
use records::{WindowNo, nth_window};

impl State {
    // Nothing is programmed yet, so window 0 does not run yet.
    #[tactic(auto, unfolding(crate::specs::Start::cold_move))]
    fn cold_move(windows: &[u32]) -> Answer
        ensures { result ≡ cold_move windows.now }
    {
        let first = WindowNo(0);
        let owner = nth_window(windows, first).owner;
        let swap = Some(Call::SwapFor(owner));
        State::zeros().ask(Stage::ProgramRegions, first, false, swap)
    }

    // It asks for the regions of window 0's owner.
    #[tactic(auto, using(crate::proofs::StartLaws::cold_refused, crate::proofs::StartLaws::cold_accepted))]
    pub fn cold_start(plan: &Plan<'_>) -> Answer
        ensures { result ≡ cold_of plan.now }
    {
        match plan.check() {
            Ok(()) => State::cold_move(plan.windows()),
            Err(r) => State::zeros().refused(Err(r)),
        }
    }
}
