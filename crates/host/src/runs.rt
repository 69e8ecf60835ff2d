// A run.
ghost use Rattle.std.specs.Prelude.{◌≡◌};
ghost use Rattle.plan.specs.Plan.{frame_of, plan_of};
ghost use Rattle.machine.specs.Run.{run_of, log_of};
ghost use Rattle.wire.specs.Answers.{verdict_words};
ghost use Rattle.in_words.specs.Events.{left_words};
ghost use Rattle.host.specs.Numbers.{counts_of};

use plan::{Frame, Plan};

#[unsafe(no_mangle)]
pub extern "C" fn shillingnook_run(
    length: u32,
    windows: &[u32],
    rows: &[u32],
    ticks: &[u32],
    statuses: &[u32],
    log: &mut [u32],
    state: &mut [u32; 8],
    counts: &mut [u64; 3],
    answer: &mut [u32; 3],
)
    ensures { let p = plan_of (frame_of length) windows.now rows.now in
        let r = run_of p ticks.now statuses.now log.old in
        (answer.new ≡ verdict_words r.verdict) × (counts.new ≡ counts_of r)
        × (state.new ≡ left_words r.verdict r.state state.old) × (log.new ≡ log_of p ticks.now statuses.now log.old) }
{
    let plan = Plan::new(Frame { length }, windows, rows);
    let words = *state;
    let end = run::run(&plan, ticks, statuses, log);
    *state = in_words::left(end.verdict, end.state, words);
    *counts = [end.ticks as u64, end.statuses as u64, end.calls as u64];
    *answer = wire::verdict_words(end.verdict);
}
