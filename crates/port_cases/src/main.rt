// Document 01's cases for the switcher of the four-window port, one to a line: steps and switches over frame A. A verdict is its number and place,
// 0 0 where accepted; a state is its window, phase (0 Running to 3 Resume) and mark.
#![tactic(auto)]

use major_frame::MajorFrame;
use output::{end, put, put_flag, put_verdict, say};
use protocol::{Call, call_words};
use std::io;
use switcher::{Stepped, SwPhase, Switcher};

const FRAME_A: MajorFrame = MajorFrame {
    partition_id: [0, 1, 0, 2],
    offset: [0, 10, 30, 35],
    budget: [10, 20, 5, 15],
    frame_len: 50,
};

// The state that `new` makes of it.
const STARTED: Switcher = Switcher {
    frame: FRAME_A,
    cur: 0,
    phase: SwPhase::Running,
    swapped: false,
};

fn put_state(rt: &impl Print, s: Switcher) -> io::Result<()> {
    put(rt, s.cur)?;
    put(rt, s.phase.number())?;
    put_flag(rt, s.swapped)
}

fn put_calls(rt: &impl Print, calls: [Option<Call>; 3]) -> io::Result<()> {
    for call in calls {
        let words = call_words(call);
        put(rt, words.number)?;
        put(rt, words.partition)?;
    }
    Ok(())
}

// The state is handed on.
fn show_step(rt: &impl Print, name: &[u8], r: Stepped) -> io::Result<Switcher> {
    say(rt, name)?;
    put_verdict(rt, r.verdict)?;
    put_flag(rt, r.done)?;
    put_state(rt, r.state)?;
    end(rt)?;
    Ok(r.state)
}

fn show_switch(
    rt: &impl Print,
    name: &[u8],
    s: Switcher,
    save: u32,
    swap: u32,
    resume: u32,
) -> io::Result<()> {
    let r = run_switch::run_switch(s, save, swap, resume);
    say(rt, name)?;
    put_verdict(rt, r.verdict)?;
    put_state(rt, r.state)?;
    put_calls(rt, r.calls)?;
    end(rt)
}

fn show_new(rt: &impl Print, name: &[u8], f: MajorFrame) -> io::Result<Switcher> {
    let r = Switcher::new(f);
    say(rt, name)?;
    put_verdict(rt, r.verdict)?;
    put_state(rt, r.state)?;
    end(rt)?;
    Ok(r.state)
}

fn show_news(rt: &impl Print) -> io::Result<Switcher> {
    let budget = [10, 20, 0, 15];
    show_new(rt, b"bad new:", MajorFrame { budget, ..FRAME_A })?;
    show_new(rt, b"new:", FRAME_A)
}

fn show_steps(rt: &impl Print, s: Switcher) -> io::Result<Switcher> {
    show_step(rt, b"early:", s.mark_saved())?;
    show_step(rt, b"tick 8:", s.tick(8))?;
    show_step(rt, b"tick 10:", s.tick(10))?;
    show_step(rt, b"tick 9:", s.tick(9))
}

fn show_switches(rt: &impl Print, due: Switcher) -> io::Result<()> {
    show_switch(rt, b"zeros:", due, 0, 0, 0)?;
    show_switch(rt, b"save 7:", due, 7, 0, 0)?;
    show_switch(rt, b"swap 7:", due, 0, 7, 0)?;
    show_switch(rt, b"resume 7:", due, 0, 0, 7)
}

fn show_marks(rt: &impl Print, due: Switcher) -> io::Result<Switcher> {
    let saved = show_step(rt, b"saved:", due.mark_saved())?;
    let swapped = show_step(rt, b"swapped:", saved.mark_swapped())?;
    show_step(rt, b"resumed:", swapped.mark_resumed())
}

fn show_strange(rt: &impl Print) -> io::Result<()> {
    let past = Switcher { cur: 4, ..STARTED };
    show_step(rt, b"window 4:", past.tick(9))?;
    let marked = Switcher {
        phase: SwPhase::SaveCtx,
        swapped: true,
        ..STARTED
    };
    show_step(rt, b"marked:", marked.tick(9))?;
    let frame_len = 51;
    let frame = MajorFrame {
        frame_len,
        ..FRAME_A
    };
    show_step(rt, b"5 before 17:", Switcher { frame, ..past }.tick(9))?;
    Ok(())
}

fn main(rt: HostRuntime) -> io::Result<()> {
    let s = show_news(&rt)?;
    let due = show_steps(&rt, s)?;
    show_switches(&rt, due)?;
    let next = show_marks(&rt, due)?;
    show_switch(&rt, b"not due:", next, 0, 0, 0)?;
    show_strange(&rt)
}
