// Which states are let in: those that some ticks and statuses lead to from the plan's cold start, and of them those that are not stopped.
#![tactic(auto)]

ghost use Rattle.std.specs.Prelude.{◌≡◌, ◌/◌, ◌^◌, ◌<◌, length};
ghost use Rattle.machine.specs.Guard.{fits_at, state_verdict, guarded};

use crate::fits::fits_at;
pub use machine::{Guarded, NotLetIn};
use plan::Plan;
use protocol::{Phase, Stage};
use records::Window;
use refusal::{Refusal, Verdict};
use state::State;

mod fits;

// The list is one of an accepted plan, or as short.
fn window_count(windows: &[u32]) -> u32
    requires { length windows.now / 3 < 2 ^ 32 }
    ensures { result ≡ length windows.now / 3 }
{
    (windows.len() / Window::NUMBERS) as u32
}

// 17, then 14.
fn let_in(state: State, stage: Stage, count: u32, windows: &[u32]) -> Verdict
    ensures { result ≡ state_verdict (fits_at count windows.now state stage) state.phase }
{
    if !fits_at(state, stage, count, windows) {
        return Err(Refusal::StrangeState);
    }
    match state.phase {
        Phase::At(_) => Ok(()),
        Phase::Stopped(_, _) => Err(Refusal::MachineStopped),
    }
}

// The plan's numbers come first. A refusal too comes with the state's stage, and with how many windows an accepted plan has.
#[tactic(auto, using(accepted::proofs::AcceptedLaws::accepted_all, machine::proofs::GuardLaws::guard_plan, machine::proofs::GuardLaws::guard_state))]
pub fn guard(state: State, plan: &Plan<'_>) -> Result<Guarded, NotLetIn>
    ensures { result ≡ guarded plan.now state }
{
    let stage = state.phase.stage();
    plan.check().map_err(|refusal| NotLetIn {
        found: Guarded { stage, count: 0 },
        refusal,
    })?;
    let windows = plan.windows();
    let count = window_count(windows);
    let found = Guarded { stage, count };
    let_in(state, stage, count, windows).map_err(|refusal| NotLetIn { found, refusal })?;
    Ok(found)
}
