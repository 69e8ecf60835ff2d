// A whole run of frame A of document 01, in words: what the machine asks of the host, call by call, who runs when, and why it stopped. It is given ticks 0 to
// 30, so that windows 0 and 1 pass, then tick 40, which is not due; every call is answered with zero.
#![tactic(auto)]

use output::{say_line, say_part};
use plan::{Frame, Plan};
use protocol::{Cause, Phase, Stage};
use records::{WindowNo, nth_window, window_end};
use run::{RunAnswer, run};
use std::{fmt, io};
use timeline::next_of;

const FRAME: Frame = Frame { length: 50 };

// Owner, offset and budget of each window.
const FRAME_A: [u32; 12] = [0, 0, 10, 1, 10, 20, 0, 30, 5, 2, 35, 15];

const COUNT: u32 = 4;

const TICKS: [u32; 32] = [
    0, 1, 2, 3, 4, 5, 6, 7, 8, 9, 10, 11, 12, 13, 14, 15, 16, 17, 18, 19, 20, 21, 22, 23, 24, 25,
    26, 27, 28, 29, 30, 40,
];

// A value that is written in this program's words.
#[derive(Drop)]
struct Told<T>(T);

impl fmt::Display for Told<Stage> {
    fn fmt<W: fmt::Write>(&self, f: &mut fmt::Formatter<W>) -> fmt::Result {
        f.write_str(match self.0 {
            Stage::Running => "while a partition ran",
            Stage::SaveCtx => "while the save was open",
            Stage::ProgramRegions => "while the swap was open",
            Stage::Resume => "while the resume was open",
        })
    }
}

impl fmt::Display for Told<Cause> {
    fn fmt<W: fmt::Write>(&self, f: &mut fmt::Formatter<W>) -> fmt::Result {
        match self.0 {
            Cause::WrongTick(t) => write!(f, "by tick {t}"),
            Cause::TickInSwitch(t) => write!(f, "by a tick in a switch, {t}"),
            Cause::BadStatus(word) => write!(f, "by the status {word}"),
        }
    }
}

impl fmt::Display for Told<Phase> {
    fn fmt<W: fmt::Write>(&self, f: &mut fmt::Formatter<W>) -> fmt::Result {
        match self.0 {
            Phase::At(stage) => write!(f, "went on {}", Told(stage)),
            Phase::Stopped(stage, cause) => {
                write!(f, "stopped {}, {}", Told(stage), Told(cause))
            }
        }
    }
}

// The ticks of window w, which the partition that was resumed has now.
fn say_window(rt: &impl Print, plan: &Plan<'_>, w: u32) -> io::Result<()> {
    let window = nth_window(plan.windows(), WindowNo(w));
    say_line(
        rt,
        format_args!(
            ": it runs in window {w}, which starts at tick {} and ends before tick {}",
            window.offset,
            window_end(window)
        ),
    )
}

// One record of the log; w is the window that is next to run, and after a resume the one after it.
fn say_call(rt: &impl Print, number: u32, q: u32, plan: &Plan<'_>, w: u32) -> io::Result<u32> {
    match number {
        1 => say_line(rt, format_args!("save the context of partition {q}"))?,
        2 => say_line(rt, format_args!("swap in the regions of partition {q}"))?,
        _ => {
            say_part(rt, format_args!("resume partition {q}"))?;
            say_window(rt, plan, w)?;
            return Ok(next_of(COUNT, w));
        }
    }
    Ok(w)
}

fn say_log(rt: &impl Print, plan: &Plan<'_>, log: &[u32], calls: usize) -> io::Result<()> {
    let mut w = 0;
    for record in log.chunks_exact(2).take(calls) {
        w = say_call(rt, record[0], record[1], plan, w)?;
    }
    Ok(())
}

fn say_end(rt: &impl Print, end: RunAnswer) -> io::Result<()> {
    let state = end.state;
    say_line(
        rt,
        format_args!(
            "{}; tick {} was due. It had used {} ticks and {} statuses, and written {} calls.",
            Told(state.phase),
            state.due,
            end.ticks,
            end.statuses,
            end.calls
        ),
    )
}

fn main(rt: HostRuntime) -> io::Result<()> {
    let plan = Plan::new(FRAME, &FRAME_A, &[]);
    let mut log = [0u32; 196];
    let end = run(&plan, &TICKS, &[0; 16], &mut log);
    say_log(&rt, &plan, &log, end.calls)?;
    say_end(&rt, end)
}
