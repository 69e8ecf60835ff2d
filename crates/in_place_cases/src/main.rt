// The four-window state in the original's calling form: one state is lent to `tick` and to the three marks in turn, over two switches of frame A, off
// the boundary, and where it is refused. A line has what the call told, the refusal's number and place (0 0 where accepted) and whether the step was
// taken, and the state that it left: window, phase (0 Running to 3 Resume) and mark.
#![tactic(auto)]

use drive::driven;
use major_frame::MajorFrame;
use output::{end, put, put_flag, put_verdict, say};
use std::io;
use switcher::{Stepped, SwPhase, Switcher};

mod drive;

const FRAME_A: MajorFrame = MajorFrame {
    partition_id: [0, 1, 0, 2],
    offset: [0, 10, 30, 35],
    budget: [10, 20, 5, 15],
    frame_len: 50,
};

// The state that `new` makes of it.
const STARTED: Switcher = Switcher {
    frame: FRAME_A,
    cur: 0,
    phase: SwPhase::Running,
    swapped: false,
};

fn put_state(rt: &impl Print, s: Switcher) -> io::Result<()> {
    put(rt, s.cur)?;
    put(rt, s.phase.number())?;
    put_flag(rt, s.swapped)
}

fn show(rt: &impl Print, name: &[u8], r: Stepped) -> io::Result<()> {
    say(rt, name)?;
    put_verdict(rt, r.verdict)?;
    put_flag(rt, r.done)?;
    put_state(rt, r.state)?;
    end(rt)
}

// The state is handed on.
fn show_course(rt: &impl Print, name: &[u8], s: Switcher, t: u32) -> io::Result<Switcher> {
    let course = driven(s, t);
    show(rt, name, course.ticked)?;
    show(rt, b"  saved:", course.saved)?;
    show(rt, b"  swapped:", course.swapped)?;
    show(rt, b"  resumed:", course.resumed)?;
    Ok(course.resumed.state)
}

fn show_strange(rt: &impl Print) -> io::Result<()> {
    show_course(rt, b"window 4:", Switcher { cur: 4, ..STARTED }, 9)?;
    let marked = Switcher {
        phase: SwPhase::SaveCtx,
        swapped: true,
        ..STARTED
    };
    show_course(rt, b"marked:", marked, 9)?;
    let budget = [10, 20, 0, 15];
    let frame = MajorFrame { budget, ..FRAME_A };
    show_course(rt, b"budget 0:", Switcher { frame, ..STARTED }, 9)?;
    Ok(())
}

fn main(rt: HostRuntime) -> io::Result<()> {
    show_course(&rt, b"tick 8:", STARTED, 8)?;
    let s = show_course(&rt, b"tick 9:", STARTED, 9)?;
    show_course(&rt, b"tick 29:", s, 29)?;
    show_strange(&rt)
}
