// The test of 17: a state that some ticks and statuses lead to from the plan's cold start. One window tells it, the target's, so that the
// test takes the same time for any plan.
ghost use Rattle.std.specs.Prelude.{◌≡◌};
ghost use Rattle.machine.specs.Guard.{in_window, between_windows, at_start, fits_stage, fits_at};

use protocol::Stage;
use records::{Window, nth_window, window_end};
use state::State;
use timeline::next_of;

// No switch is under way, and the due tick is in the current window, which is the target.
fn in_window(state: State, count: u32, window: Window) -> bool
    ensures { result ≡ in_window count state.current.0 state.target.0 state.due window }
{
    let current = state.current.0;
    let due = state.due;
    let end = window_end(window);
    (current < count) & (state.target.0 == current) & (window.offset <= due) & ((due as u64) < end)
}

// A switch from a window to the next, the target, whose first tick is due.
fn between_windows(state: State, count: u32, window: Window) -> bool
    ensures { result ≡ between_windows count state.current.0 state.target.0 state.due window }
{
    let current = state.current.0;
    let next = next_of(count, current);
    (current < count) & (state.target.0 == next) & (state.due == window.offset)
}

// The switch that a cold start is.
fn at_start(state: State) -> bool
    ensures { result ≡ at_start state.current.0 state.target.0 state.due }
{
    (state.current.0 == 0) & (state.target.0 == 0) & (state.due == 0)
}

// The mark is set when the regions are programmed, clear when they are about to be.
fn fits_stage(stage: Stage, swapped: bool, inside: bool, between: bool, start: bool) -> bool
    ensures { result ≡ fits_stage stage swapped inside between start }
{
    match stage {
        Stage::Running => swapped & inside,
        Stage::SaveCtx => !swapped & between,
        Stage::ProgramRegions => !swapped & (start | between),
        Stage::Resume => swapped & (start | between),
    }
}

pub(crate) fn fits_at(state: State, stage: Stage, count: u32, windows: &[u32]) -> bool
    ensures { result ≡ fits_at count windows.now state stage }
{
    let window = nth_window(windows, state.target);
    let inside = in_window(state, count, window);
    let between = between_windows(state, count, window);
    let start = at_start(state);
    state.phase.can_be(state.due) & fits_stage(stage, state.swapped, inside, between, start)
}
