// What one event does to a machine that goes on, at the stage that the guard found it at; it asks nothing of the rest of the state.
ghost use Rattle.std.specs.Prelude.{◌≡◌};
ghost use Rattle.machine.specs.Step.{timetable, last_tick, save, tick_taken, tick_at, zero_at, status_at};

use protocol::{Call, Cause, Stage};
use records::{WindowNo, nth_window, window_end};
use refusal::Refusal;
use state::{Answer, State};
use timeline::next_of;

// What the machine knows of a plan: never the rows.
#[derive(Clone, Copy)]
pub(crate) struct Timetable<'a> {
    pub length: u32,
    pub count: u32,
    pub windows: &'a [u32],
}

fn last_tick(windows: &[u32], w: WindowNo, t: u32) -> bool
    ensures { result ≡ last_tick windows.now w t }
{
    let end = window_end(nth_window(windows, w));
    t as u64 + 1 == end
}

// Who runs has to go.
fn save(state: State, tt: Timetable<'_>) -> Answer
    ensures { result ≡ save tt.entry.count tt.entry.windows.now state }
{
    let current = state.current;
    let owner = nth_window(tt.windows, current).owner;
    let target = WindowNo(next_of(tt.count, current.0));
    state.ask(Stage::SaveCtx, target, false, Some(Call::SaveFor(owner)))
}

// The due tick, Running: at the window's last tick the switch begins.
#[tactic(auto, using(machine::proofs::StepLaws::taken_last))]
fn tick_taken(state: State, tt: Timetable<'_>, t: u32) -> Answer
    ensures { result ≡ tick_taken (timetable tt.entry.length tt.entry.count tt.entry.windows.now) state t }
{
    let last = last_tick(tt.windows, state.current, t);
    let taken = state.ticked(next_of(tt.length, t));
    if last {
        return save(taken, tt);
    }
    taken.quiet()
}

#[tactic(auto, using(machine::proofs::StepLaws::at_wrong))]
pub(crate) fn tick_at(state: State, stage: Stage, tt: Timetable<'_>, t: u32) -> Answer
    ensures { result ≡ tick_at (timetable tt.entry.length tt.entry.count tt.entry.windows.now) state stage t }
{
    if stage.call_open() {
        return state.stop(stage, Cause::TickInSwitch(t));
    }
    if t != state.due {
        return state.stop(stage, Cause::WrongTick(t));
    }
    tick_taken(state, tt, t)
}

// A zero for the call that is open: who comes gets its regions, then it may run, then it runs.
#[tactic(auto, unfolding(machine::specs::Step::zero_at))]
fn zero_at(state: State, stage: Stage, windows: &[u32]) -> Answer
    ensures { result ≡ zero_at windows.now state stage }
{
    let target = state.target;
    let owner = nth_window(windows, target).owner;
    match stage {
        Stage::SaveCtx => {
            let swap = Some(Call::SwapFor(owner));
            state.ask(Stage::ProgramRegions, target, state.swapped, swap)
        }
        Stage::ProgramRegions => {
            let resume = Some(Call::ResumeFor(owner));
            state.ask(Stage::Resume, target, true, resume)
        }
        Stage::Resume | Stage::Running => state.resumed().quiet(),
    }
}

// A status word answers the call that is open, if one is.
pub(crate) fn status_at(state: State, stage: Stage, windows: &[u32], word: u32) -> Answer
    ensures { result ≡ status_at windows.now state stage word }
{
    if !stage.call_open() {
        return state.refused(Err(Refusal::NoCallOpen));
    }
    if word == 0 {
        return zero_at(state, stage, windows);
    }
    state.stop(stage, Cause::BadStatus(word))
}
