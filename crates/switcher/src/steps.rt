// How a switch begins and goes on: `new`, `tick` and the three marks.
ghost use Rattle.std.specs.Prelude.{◌≡◌};
ghost use Rattle.switcher.specs.Switch.{state_verdict, moves, stepped, new_of, tick_of, mark_saved_of, mark_swapped_of, mark_resumed_of};

use crate::{Made, Stepped, SwPhase, Switcher};
use major_frame::{MAX_WINDOWS, MajorFrame, WINDOWS};
use refusal::Verdict;
use timeline::next_of;

// What stands in place of a frame that is refused.
const ZEROS: MajorFrame = MajorFrame {
    partition_id: [0; MAX_WINDOWS],
    offset: [0; MAX_WINDOWS],
    budget: [0; MAX_WINDOWS],
    frame_len: 0,
};

// A step is taken from an accepted state, if it is due.
fn moves(verdict: Verdict, due: bool) -> bool
    ensures { result ≡ moves verdict due }
{
    match verdict {
        Ok(()) => due,
        Err(_) => false,
    }
}

impl Switcher {
    // Where the frame is refused, a state of zeros.
    #[tactic(auto, using(crate::proofs::SwitchLaws::new_refused, crate::proofs::SwitchLaws::new_started))]
    pub fn new(frame: MajorFrame) -> Made
        ensures { result ≡ new_of frame }
    {
        let verdict = frame.check();
        let frame = if verdict.is_ok() { frame } else { ZEROS };
        let state = Switcher {
            frame,
            cur: 0,
            phase: SwPhase::Running,
            swapped: false, // nothing is programmed yet
        };
        Made { state, verdict }
    }

    // The guard of every step: a refused state comes back, an accepted one moves on to `next` if the step is due.
    #[tactic(auto, unfolding(crate::specs::Switch::stepped))]
    fn step(self, due: bool, next: Switcher) -> Stepped
        ensures { result ≡ stepped (state_verdict self) self next due }
    {
        let verdict = self.check();
        let done = moves(verdict, due);
        Stepped {
            state: if done { next } else { self },
            done,
            verdict,
        }
    }

    // Running at the window's last tick, the switch begins; any other tick changes nothing.
    #[tactic(auto, unfolding(crate::specs::Switch::at_boundary, crate::specs::Switch::in_phase))]
    pub fn tick(self, t: u32) -> Stepped
        ensures { result ≡ tick_of self t }
    {
        let last = self.frame.is_last_tick(self.cur, t);
        let next = Switcher {
            phase: SwPhase::SaveCtx,
            swapped: false, // what is programmed is for the partition that goes
            ..self
        };
        self.step(last && self.phase == SwPhase::Running, next)
    }

    #[tactic(auto, unfolding(crate::specs::Switch::in_phase))]
    pub fn mark_saved(self) -> Stepped
        ensures { result ≡ mark_saved_of self }
    {
        let phase = SwPhase::ProgramRegions;
        let due = self.phase == SwPhase::SaveCtx;
        self.step(due, Switcher { phase, ..self })
    }

    #[tactic(auto, unfolding(crate::specs::Switch::in_phase))]
    pub fn mark_swapped(self) -> Stepped
        ensures { result ≡ mark_swapped_of self }
    {
        let next = Switcher {
            phase: SwPhase::Resume,
            swapped: true,
            ..self
        };
        self.step(self.phase == SwPhase::ProgramRegions, next)
    }

    #[tactic(auto, unfolding(crate::specs::Switch::in_phase))]
    pub fn mark_resumed(self) -> Stepped
        ensures { result ≡ mark_resumed_of self }
    {
        let cur = next_of(WINDOWS, self.cur);
        let phase = SwPhase::Running;
        let due = self.phase == SwPhase::Resume;
        self.step(due, Switcher { cur, phase, ..self })
    }
}
