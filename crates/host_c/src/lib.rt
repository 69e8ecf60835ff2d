// The exports of the C interface: each calls the function of crate `host` that has its name, and states its clauses again, for a crate is a library or what C links, and not
// both. tools/staticlib makes target/staticlib/libhost.a of it; include/shillingnook.h declares it.
#![tactic(auto)]

ghost use Rattle.std.specs.Prelude.{◌≡◌};
ghost use Rattle.plan.specs.Plan.{frame_of, plan_of};
ghost use Rattle.plan.specs.Faults.{verdict_of};
ghost use Rattle.lookup.specs.Lookup.{lookup_of};
ghost use Rattle.words.specs.Words.{words_of};
ghost use Rattle.state.specs.Start.{cold_of};
ghost use Rattle.machine.specs.Run.{log_of, run_of};
ghost use Rattle.wire.specs.Answers.{answer_words, verdict_words};
ghost use Rattle.in_words.specs.Events.{left_words, status_in_words, tick_in_words};
ghost use Rattle.host.specs.Numbers.{counts_of, located_words, region_words};

#[unsafe(no_mangle)]
pub extern "C" fn shillingnook_check(
    length: u32,
    windows: &[u32],
    rows: &[u32],
    answer: &mut [u32; 3],
)
    ensures { answer.new ≡ verdict_words (verdict_of (plan_of (frame_of length) windows.now rows.now)) }
{
    host::shillingnook_check(length, windows, rows, answer);
}

#[unsafe(no_mangle)]
pub extern "C" fn shillingnook_lookup(
    length: u32,
    windows: &[u32],
    rows: &[u32],
    tick: u32,
    answer: &mut [u32; 4],
)
    ensures { answer.new ≡ located_words (lookup_of (plan_of (frame_of length) windows.now rows.now) tick) }
{
    host::shillingnook_lookup(length, windows, rows, tick, answer);
}

#[unsafe(no_mangle)]
pub extern "C" fn shillingnook_words(
    length: u32,
    windows: &[u32],
    rows: &[u32],
    partition: u32,
    answer: &mut [u32; 19],
)
    ensures { answer.new ≡ region_words (words_of (plan_of (frame_of length) windows.now rows.now) partition) }
{
    host::shillingnook_words(length, windows, rows, partition, answer);
}

#[unsafe(no_mangle)]
pub extern "C" fn shillingnook_cold_start(
    length: u32,
    windows: &[u32],
    rows: &[u32],
    state: &mut [u32; 8],
    answer: &mut [u32; 5],
)
    ensures { let a = cold_of (plan_of (frame_of length) windows.now rows.now) in
        (answer.new ≡ answer_words a) × (state.new ≡ left_words a.verdict a.state state.old) }
{
    host::shillingnook_cold_start(length, windows, rows, state, answer);
}

#[unsafe(no_mangle)]
pub extern "C" fn shillingnook_tick(
    length: u32,
    windows: &[u32],
    rows: &[u32],
    tick: u32,
    state: &mut [u32; 8],
    answer: &mut [u32; 5],
)
    ensures { let a = tick_in_words (plan_of (frame_of length) windows.now rows.now) state.old tick in
        (answer.new ≡ answer_words a) × (state.new ≡ left_words a.verdict a.state state.old) }
{
    host::shillingnook_tick(length, windows, rows, tick, state, answer);
}

#[unsafe(no_mangle)]
pub extern "C" fn shillingnook_status(
    length: u32,
    windows: &[u32],
    rows: &[u32],
    status: u32,
    state: &mut [u32; 8],
    answer: &mut [u32; 5],
)
    ensures { let a = status_in_words (plan_of (frame_of length) windows.now rows.now) state.old status in
        (answer.new ≡ answer_words a) × (state.new ≡ left_words a.verdict a.state state.old) }
{
    host::shillingnook_status(length, windows, rows, status, state, answer);
}

#[unsafe(no_mangle)]
pub extern "C" fn shillingnook_run(
    length: u32,
    windows: &[u32],
    rows: &[u32],
    ticks: &[u32],
    statuses: &[u32],
    log: &mut [u32],
    state: &mut [u32; 8],
    counts: &mut [u64; 3],
    answer: &mut [u32; 3],
)
    ensures { let p = plan_of (frame_of length) windows.now rows.now in
        let r = run_of p ticks.now statuses.now log.old in
        (answer.new ≡ verdict_words r.verdict) × (counts.new ≡ counts_of r)
        × (state.new ≡ left_words r.verdict r.state state.old) × (log.new ≡ log_of p ticks.now statuses.now log.old) }
{
    host::shillingnook_run(
        length, windows, rows, ticks, statuses, log, state, counts, answer,
    );
}
