// The original's `run_switch` over four windows: one whole switch, with the status of each call. Seam calls cannot be made from proved code, so
// the host brings the statuses, and the calls are in the answer.
#![tactic(auto)]

ghost use Rattle.std.specs.Prelude.{◌≡◌};
ghost use Rattle.run_switch.specs.RunSwitch.{calls_made, calls_of, left_after, switch_verdict, run_switch_of};

use major_frame::WINDOWS;
use protocol::Call;
use records::PartitionNo;
use refusal::{Refusal, Verdict, or_refuse};
use switcher::{SwPhase, Switcher};
use timeline::next_of;

// What `run_switch` answers: the original's three seams, which proved code cannot cross itself, in order. The last that was
// made is the one that got a nonzero status; those past it are none. Refused, the state is as it came (document 01), so no `Result`.
#[derive(Clone, Copy)]
pub struct Switched {
    pub state: Switcher,
    pub calls: [Option<Call>; 3],
    pub verdict: Verdict,
}

// How many calls a switch makes: none where it is refused, else up to the first that gets a nonzero status.
#[tactic(auto, unfolding(crate::specs::RunSwitch::calls_made))]
fn calls_made(verdict: Verdict, save: u32, swap: u32) -> u32
    ensures { result ≡ calls_made verdict save swap }
{
    if verdict.is_err() {
        0
    } else if save != 0 {
        1
    } else if swap != 0 {
        2
    } else {
        3
    }
}

// The first calls of a switch: the outgoing partition is saved, the incoming one's regions are programmed, then it is
// resumed.
#[tactic(auto, unfolding(crate::specs::RunSwitch::calls_of))]
fn calls_of(made: u32, outgoing: PartitionNo, incoming: PartitionNo) -> [Option<Call>; 3]
    ensures { result ≡ calls_of made outgoing.0 incoming.0 }
{
    [
        (0 < made).then_some(Call::SaveFor(outgoing)),
        (1 < made).then_some(Call::SwapFor(incoming)),
        (2 < made).then_some(Call::ResumeFor(incoming)),
    ]
}

// The state that a switch of so many calls leaves: it stays in the phase whose call got a nonzero status.
#[tactic(auto, unfolding(crate::specs::RunSwitch::left_after))]
fn left_after(switcher: Switcher, made: u32, resume: u32) -> Switcher
    ensures { result ≡ left_after made resume switcher }
{
    if made < 2 {
        switcher
    } else if made < 3 {
        Switcher {
            phase: SwPhase::ProgramRegions,
            ..switcher
        }
    } else if resume != 0 {
        Switcher {
            phase: SwPhase::Resume,
            swapped: true,
            ..switcher
        }
    } else {
        Switcher {
            cur: next_of(WINDOWS, switcher.cur),
            phase: SwPhase::Running,
            swapped: true,
            ..switcher
        }
    }
}

// The state's refusal, else 13 outside SaveCtx.
#[tactic(auto, unfolding(crate::specs::RunSwitch::switch_verdict, switcher::specs::Switch::in_phase))]
fn switch_check(switcher: Switcher) -> Verdict
    ensures { result ≡ switch_verdict switcher }
{
    let open = switcher.phase == SwPhase::SaveCtx;
    or_refuse(switcher.check(), open, Refusal::NoCallOpen)
}

// The host brings the status of each call; the answer has the calls that count, up to the first that failed.
#[tactic(auto, unfolding(crate::specs::RunSwitch::run_switch_of))]
pub fn run_switch(switcher: Switcher, save: u32, swap: u32, resume: u32) -> Switched
    ensures { result ≡ run_switch_of switcher save swap resume }
{
    let verdict = switch_check(switcher);
    let made = calls_made(verdict, save, swap);
    let frame = switcher.frame;
    let outgoing = PartitionNo(frame.partition_at(switcher.cur));
    let incoming = PartitionNo(frame.partition_at(next_of(WINDOWS, switcher.cur)));
    Switched {
        state: left_after(switcher, made, resume),
        calls: calls_of(made, outgoing, incoming),
        verdict,
    }
}
