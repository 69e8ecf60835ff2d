// The machine over frame A of document 01: the cold start, the ticks of window 0, the switch to window 1, a tick that is not due, and one
// more. A line says what was sent, then where the machine is, the window and the due tick, and what it asks of the host.
#![tactic(auto)]

use Event::{Status, Tick};
use output::say_line;
use plan::{Frame, Plan};
use protocol::{Call, Cause, Phase, Stage};
use state::{Answer, State};
use std::{fmt, io};
use switch::{status, tick};

const FRAME: Frame = Frame { length: 50 };

// Owner, offset and budget of each window.
const FRAME_A: [u32; 12] = [0, 0, 10, 1, 10, 20, 0, 30, 5, 2, 35, 15];

// A tick, or the status of the call that is open.
#[derive(Clone, Copy)]
enum Event {
    Tick(u32),
    Status(u32),
}

// What is sent after the cold start.
const EVENTS: [Event; 17] = [
    Status(0),
    Status(0),
    Tick(0),
    Tick(1),
    Tick(2),
    Tick(3),
    Tick(4),
    Tick(5),
    Tick(6),
    Tick(7),
    Tick(8),
    Tick(9),
    Status(0),
    Status(0),
    Status(0),
    Tick(12),
    Tick(13),
];

impl fmt::Display for Event {
    fn fmt<W: fmt::Write>(&self, f: &mut fmt::Formatter<W>) -> fmt::Result {
        match *self {
            Tick(t) => write!(f, "tick {t}"),
            Status(word) => write!(f, "status {word}"),
        }
    }
}

// A value that is written in this program's words.
#[derive(Drop)]
struct Told<T>(T);

impl fmt::Display for Told<Stage> {
    fn fmt<W: fmt::Write>(&self, f: &mut fmt::Formatter<W>) -> fmt::Result {
        f.write_str(match self.0 {
            Stage::Running => "running",
            Stage::SaveCtx => "saving the context",
            Stage::ProgramRegions => "programming the regions",
            Stage::Resume => "resuming",
        })
    }
}

impl fmt::Display for Told<Cause> {
    fn fmt<W: fmt::Write>(&self, f: &mut fmt::Formatter<W>) -> fmt::Result {
        match self.0 {
            Cause::WrongTick(t) => write!(f, "wrong tick {t}"),
            Cause::TickInSwitch(t) => write!(f, "tick in a switch, {t}"),
            Cause::BadStatus(word) => write!(f, "bad status {word}"),
        }
    }
}

impl fmt::Display for Told<Phase> {
    fn fmt<W: fmt::Write>(&self, f: &mut fmt::Formatter<W>) -> fmt::Result {
        match self.0 {
            Phase::At(stage) => write!(f, "{}", Told(stage)),
            Phase::Stopped(stage, cause) => {
                write!(f, "stopped while {}: {}", Told(stage), Told(cause))
            }
        }
    }
}

impl fmt::Display for Told<Call> {
    fn fmt<W: fmt::Write>(&self, f: &mut fmt::Formatter<W>) -> fmt::Result {
        let (what, q) = match self.0 {
            Call::SaveFor(q) => ("save", q),
            Call::SwapFor(q) => ("swap in", q),
            Call::ResumeFor(q) => ("resume", q),
        };
        write!(f, "asks to {what} partition {}", q.0)
    }
}

impl fmt::Display for Told<Answer> {
    fn fmt<W: fmt::Write>(&self, f: &mut fmt::Formatter<W>) -> fmt::Result {
        let Answer {
            state,
            call,
            verdict,
        } = self.0;
        if let Err(r) = verdict {
            let place = r.place();
            write!(f, "refused with {} at place {place}: ", r.number())?;
        }
        let phase = Told(state.phase);
        write!(f, "{phase}\twindow {}\tdue {}", state.current.0, state.due)?;
        if let Some(call) = call {
            write!(f, "\t{}", Told(call))?;
        }
        Ok(())
    }
}

fn sent(state: State, plan: &Plan<'_>, event: Event) -> Answer {
    match event {
        Tick(t) => tick(state, plan, t),
        Status(word) => status(state, plan, word),
    }
}

fn main(rt: HostRuntime) -> io::Result<()> {
    let plan = Plan::new(FRAME, &FRAME_A, &[]);
    let cold = State::cold_start(&plan);
    say_line(&rt, format_args!("cold start\t{}", Told(cold)))?;
    let mut state = cold.state;
    for event in EVENTS {
        let answer = sent(state, &plan, event);
        say_line(&rt, format_args!("{event}\t{}", Told(answer)))?;
        state = answer.state;
    }
    Ok(())
}
