// What a machine that switches between partitions holds and answers (document 01, "The machine"): `make` makes states and answers, `start`
// the first of them. Nothing here takes a machine's event: that is crate `switch`.
#![tactic(auto)]

use protocol::{Call, Phase};
use records::WindowNo;
use refusal::Verdict;

mod make;
mod start;

#[derive(Clone, Copy)]
pub struct State {
    pub current: WindowNo,
    // where the switch leads; the current window if none is under way
    pub target: WindowNo,
    // the only tick that is right
    pub due: u32,
    // whether the target's regions are programmed
    pub swapped: bool,
    pub phase: Phase,
}

// The state after the event, and the call to make; or why not, with the state as it came (document 01: a refusal hands it back), so no `Result`.
#[derive(Clone, Copy)]
pub struct Answer {
    pub state: State,
    pub call: Option<Call>,
    pub verdict: Verdict,
}
