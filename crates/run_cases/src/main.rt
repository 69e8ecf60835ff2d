// Document 01's cases on runs, one to a line, with some neighbours: the verdict's number and place; the phase's number, the stage it is in or stopped in, the
// cause and its word; current and target window and the due tick; ticks and statuses used, calls written; then the log's words up to two past the last record.
// Every word of a log is 9 before the run.
#![tactic(auto)]

ghost use Rattle.std.specs.Prelude.{◌≤◌};

use output::{Numbers, put, say_line, say_part};
use plan::{Frame, Plan};
use run::{RunAnswer, run};
use std::{fmt, io};

const FRAME_A: [u32; 12] = [0, 0, 10, 1, 10, 20, 0, 30, 5, 2, 35, 15];

const TEN_TICKS: [u32; 10] = [0, 1, 2, 3, 4, 5, 6, 7, 8, 9];

const ZEROS: [u32; 5] = [0; 5];

// How a run ended, in numbers.
#[derive(Drop)]
struct End(RunAnswer);

impl fmt::Display for End {
    fn fmt<W: fmt::Write>(&self, f: &mut fmt::Formatter<W>) -> fmt::Result {
        let end = self.0;
        let state = end.state;
        write!(
            f,
            "{} {} {} {} {} {} {} {}",
            Numbers(end.verdict),
            Numbers(state.phase.words()),
            state.current.0,
            state.target.0,
            state.due,
            end.ticks,
            end.statuses,
            end.calls
        )
    }
}

// A log of so many words, 64 at most. It is shown up to one record after its calls.
fn show(
    rt: &impl Print,
    name: &str,
    plan: &Plan<'_>,
    ticks: &[u32],
    statuses: &[u32],
    words: usize,
) -> io::Result<()>
    requires { words ≤ 64 }
{
    let mut space = [9u32; 64];
    let log = &mut space[..words];
    let end = run(plan, ticks, statuses, log);
    say_part(rt, format_args!("{name}: {} log", End(end)))?;
    for record in log.chunks(2).take(end.calls.saturating_add(1)) {
        for word in record {
            put(rt, *word)?;
        }
    }
    say_line(rt, "")
}

fn plan_of(length: u32, windows: &[u32]) -> Plan<'_> {
    Plan::new(Frame { length }, windows, &[])
}

// Frame A, by the first of ten ticks and of five zeros.
fn show_zeros(rt: &impl Print, name: &str, n: usize, m: usize, words: usize) -> io::Result<()>
    requires { (n ≤ 10) × ((m ≤ 5) × (words ≤ 64)) }
{
    let plan = plan_of(50, &FRAME_A);
    show(rt, name, &plan, &TEN_TICKS[..n], &ZEROS[..m], words)
}

// Frame A over two ticks.
fn show_two(rt: &impl Print, name: &str, first: u32, second: u32, status: u32) -> io::Result<()> {
    let plan = plan_of(50, &FRAME_A);
    show(rt, name, &plan, &[first, second], &[status, 0], 16)
}

fn cases(rt: &impl Print) -> io::Result<()> {
    show_zeros(rt, "A, ticks 0 to 9, five zeros", 10, 5, 64)?;
    show(
        rt,
        "A, ticks 0 to 9, statuses 0 0 0 7",
        &plan_of(50, &FRAME_A),
        &TEN_TICKS,
        &[0, 0, 0, 7],
        64,
    )?;
    show_two(rt, "A, ticks 0, 2, statuses 0 0", 0, 2, 0)?;
    show(
        rt,
        "one window, owner 5, tick 0, five zeros",
        &plan_of(1, &[5, 0, 1]),
        &[0],
        &ZEROS,
        10,
    )
}

fn ends(rt: &impl Print) -> io::Result<()> {
    show_zeros(rt, "no tick, no status", 0, 0, 4)?;
    show_zeros(rt, "no tick, one zero", 0, 1, 4)?;
    show_zeros(rt, "no tick, three zeros", 0, 3, 4)?;
    show_zeros(rt, "ten ticks, statuses used up in the save", 10, 2, 64)?;
    show_two(rt, "a bad status at once", 0, 1, 5)?;
    show_two(rt, "a tick after the stop", 1, 0, 0)
}

fn refusals(rt: &impl Print) -> io::Result<()> {
    let no_window = plan_of(50, &[]);
    let wrong_length = plan_of(49, &FRAME_A);
    show_zeros(rt, "ten ticks, 63 words", 10, 2, 63)?;
    show_zeros(rt, "no tick, 3 words", 0, 0, 3)?;
    show(rt, "no window, no word", &no_window, &[0], &[0], 0)?;
    show(rt, "a wrong length, no word", &wrong_length, &[0], &[0], 0)
}

fn main(rt: HostRuntime) -> io::Result<()> {
    cases(&rt)?;
    ends(&rt)?;
    refusals(&rt)
}
