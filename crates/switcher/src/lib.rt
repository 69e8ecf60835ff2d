// The original's switcher under its own names, by value: preempt at a window's last tick, then save, swap regions, resume,
// one way. Every function takes any state; a refused one comes back as it came. A whole switch is crate `run_switch`.
#![tactic(auto)]

use major_frame::MajorFrame;
// where the switch is: a partition runs, or one of the three calls is open
pub use protocol::Stage as SwPhase;
use refusal::Verdict;

mod guard;
mod steps;

#[derive(Clone, Copy)]
pub struct Switcher {
    pub frame: MajorFrame,
    pub cur: u32,
    pub phase: SwPhase,
    pub swapped: bool,
}

// What `new` answers: a state of zeros where it refuses (document 01), so no `Result`.
#[derive(Clone, Copy)]
pub struct Made {
    pub state: Switcher,
    pub verdict: Verdict,
}

// What `tick` and the marks answer: the state as it came where they refuse (document 01), so no `Result`; `done` is the original's `switched` and `ok`.
#[derive(Clone, Copy)]
pub struct Stepped {
    pub state: Switcher,
    pub done: bool,
    pub verdict: Verdict,
}
