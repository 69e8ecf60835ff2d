// The machine: cold start, tick, status.
ghost use Rattle.std.specs.Prelude.{◌≡◌};
ghost use Rattle.plan.specs.Plan.{frame_of, plan_of};
ghost use Rattle.state.specs.Start.{cold_of};
ghost use Rattle.wire.specs.Answers.{answer_words};
ghost use Rattle.in_words.specs.Events.{tick_in_words, status_in_words, left_words};

use plan::{Frame, Plan};
use state::{Answer, State};

fn left(answer: Answer, words: [u32; 8]) -> [u32; 8]
    ensures { result ≡ left_words answer.verdict answer.state words }
{
    in_words::left(answer.verdict, answer.state, words)
}

#[unsafe(no_mangle)]
pub extern "C" fn shillingnook_cold_start(
    length: u32,
    windows: &[u32],
    rows: &[u32],
    state: &mut [u32; 8],
    answer: &mut [u32; 5],
)
    ensures { let a = cold_of (plan_of (frame_of length) windows.now rows.now) in
        (answer.new ≡ answer_words a) × (state.new ≡ left_words a.verdict a.state state.old) }
{
    let plan = Plan::new(Frame { length }, windows, rows);
    let words = *state;
    let first = State::cold_start(&plan);
    *state = left(first, words);
    *answer = wire::answer_words(first);
}

#[unsafe(no_mangle)]
pub extern "C" fn shillingnook_tick(
    length: u32,
    windows: &[u32],
    rows: &[u32],
    tick: u32,
    state: &mut [u32; 8],
    answer: &mut [u32; 5],
)
    ensures { let a = tick_in_words (plan_of (frame_of length) windows.now rows.now) state.old tick in
        (answer.new ≡ answer_words a) × (state.new ≡ left_words a.verdict a.state state.old) }
{
    let plan = Plan::new(Frame { length }, windows, rows);
    let words = *state;
    let next = in_words::tick(words, &plan, tick);
    *state = left(next, words);
    *answer = wire::answer_words(next);
}

#[unsafe(no_mangle)]
pub extern "C" fn shillingnook_status(
    length: u32,
    windows: &[u32],
    rows: &[u32],
    status: u32,
    state: &mut [u32; 8],
    answer: &mut [u32; 5],
)
    ensures { let a = status_in_words (plan_of (frame_of length) windows.now rows.now) state.old status in
        (answer.new ≡ answer_words a) × (state.new ≡ left_words a.verdict a.state state.old) }
{
    let plan = Plan::new(Frame { length }, windows, rows);
    let words = *state;
    let next = in_words::status(words, &plan, status);
    *state = left(next, words);
    *answer = wire::answer_words(next);
}
