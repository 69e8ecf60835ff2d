// What the machine is: which states it lets in, what a tick and a status do, and a run. The definitions are in specs/, the laws in proofs/. Here are only their types;
// crates `guard`, `switch` and `run` compute them.
#![tactic(auto)]

use protocol::{Call, Stage};
use refusal::{Refusal, Verdict};
use state::State;

// What the guard finds of a plan and a state; where it lets in, the step goes by it.
#[derive(Clone, Copy)]
pub struct Guarded {
    // where the machine is, or was when it stopped
    pub stage: Stage,
    // how many windows an accepted plan has; 0 for a refused one
    pub count: u32,
}

// A refusal of the guard, with what it found all the same.
#[derive(Clone, Copy)]
pub struct NotLetIn {
    pub found: Guarded,
    pub refusal: Refusal,
}

// The end state of a run, how many ticks and statuses were used, the one that stopped it included, and how many calls were written; a state of zeros and three zeros
// where it was refused (document 01), so no `Result`.
#[derive(Clone, Copy)]
pub struct RunAnswer {
    pub state: State,
    pub ticks: usize,
    pub statuses: usize,
    pub calls: usize,
    pub verdict: Verdict,
}

// How far a run is: the state and the call of the last answer, and how many ticks and statuses were taken. No public function takes one.
#[derive(Clone, Copy)]
pub struct Course {
    pub state: State,
    pub call: Option<Call>,
    pub ticks: usize,
    pub statuses: usize,
}
