// What every entry point asks of the state that it is handed: `inv`.
ghost use Rattle.std.specs.Prelude.{◌≡◌};
ghost use Rattle.switcher.specs.Switch.{mark_fits, state_verdict};

use crate::{SwPhase, Switcher};
use major_frame::WINDOWS;
use refusal::{Refusal, Verdict};

// What `inv` asks of the mark: set in Resume, clear before.
fn mark_fits(phase: SwPhase, swapped: bool) -> bool
    ensures { result ≡ mark_fits phase swapped }
{
    match phase {
        SwPhase::Running => true,
        SwPhase::SaveCtx | SwPhase::ProgramRegions => !swapped,
        SwPhase::Resume => swapped,
    }
}

impl Switcher {
    // 2, 3 or 5 for the frame, else 17 where `inv` is false.
    #[tactic(auto, using(crate::proofs::SwitchLaws::frame_refused), unfolding(crate::specs::Switch::state_verdict, refusal::specs::First::or_else, refusal::specs::First::refuse_if))]
    pub fn check(self) -> Verdict
        ensures { result ≡ state_verdict self }
    {
        self.frame.check()?;
        if self.cur >= WINDOWS || !mark_fits(self.phase, self.swapped) {
            return Err(Refusal::StrangeState);
        }
        Ok(())
    }
}
