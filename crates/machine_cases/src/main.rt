// The machine's refusals, 13, 14 and 17, at their edges, one case to a line, with the steps beside them: states of frame A and one event. A line has the
// verdict's number and place; the phase's number, the stage it is in or stopped in, the cause and its word; current and target window, the due tick and the
// mark; then the call's two words.
#![tactic(auto)]

use output::{Numbers, say_line};
use plan::{Frame, Plan};
use protocol::{Cause, Phase, Stage, call_words};
use records::WindowNo;
use state::{Answer, State};
use std::io;
use switch::{status, tick};

const FRAME: Frame = Frame { length: 50 };

const FRAME_A: [u32; 12] = [0, 0, 10, 1, 10, 20, 0, 30, 5, 2, 35, 15];

fn show(rt: &impl Print, name: &str, answer: Answer) -> io::Result<()> {
    let state = answer.state;
    say_line(
        rt,
        format_args!(
            "{name}: {} {} {} {} {} {} {}",
            Numbers(answer.verdict),
            Numbers(state.phase.words()),
            state.current.0,
            state.target.0,
            state.due,
            u32::from(state.swapped),
            Numbers(call_words(answer.call))
        ),
    )
}

fn running(window: u32, due: u32) -> State {
    State {
        current: WindowNo(window),
        target: WindowNo(window),
        due,
        swapped: true,
        phase: Phase::At(Stage::Running),
    }
}

// The switch from window 0 to window 1.
fn switching(stage: Stage) -> State {
    State {
        current: WindowNo(0),
        target: WindowNo(1),
        due: 10,
        swapped: stage == Stage::Resume,
        phase: Phase::At(stage),
    }
}

fn stopped_by(t: u32) -> State {
    State {
        phase: Phase::Stopped(Stage::Running, Cause::WrongTick(t)),
        ..running(1, 10)
    }
}

fn ticks(rt: &impl Print, a: &Plan<'_>) -> io::Result<()> {
    for (name, state, t) in [
        ("the due tick", running(0, 8), 8),
        ("the last tick of window 0", running(0, 9), 9),
        ("the last tick of the frame", running(3, 49), 49),
        ("a wrong tick", running(0, 8), 9),
        ("a tick in a switch", switching(Stage::SaveCtx), 10),
    ] {
        show(rt, name, tick(state, a, t))?;
    }
    Ok(())
}

fn statuses(rt: &impl Print, a: &Plan<'_>) -> io::Result<()> {
    for (name, state, word) in [
        ("zero for the save", switching(Stage::SaveCtx), 0),
        ("zero for the swap", switching(Stage::ProgramRegions), 0),
        ("zero for the resume", switching(Stage::Resume), 0),
        ("seven for the swap", switching(Stage::ProgramRegions), 7),
        ("13, a status in Running", running(0, 8), 0),
    ] {
        show(rt, name, status(state, a, word))?;
    }
    Ok(())
}

fn too_late(rt: &impl Print, a: &Plan<'_>) -> io::Result<()> {
    show(rt, "14, a tick", tick(stopped_by(12), a, 10))?;
    show(rt, "14, a status", status(stopped_by(12), a, 0))
}

fn strange_at_tick(rt: &impl Print, a: &Plan<'_>) -> io::Result<()> {
    let over_a_window = State {
        target: WindowNo(2),
        due: 30,
        ..switching(Stage::SaveCtx)
    };
    for (name, state) in [
        ("17, window 4", running(4, 50)),
        ("17, due before the window", running(1, 9)),
        ("17, due past the window", running(0, 10)),
        ("17, a switch over a window", over_a_window),
    ] {
        show(rt, name, tick(state, a, state.due))?;
    }
    Ok(())
}

fn strange_at_status(rt: &impl Print, a: &Plan<'_>) -> io::Result<()> {
    let swapped = State {
        swapped: true,
        ..switching(Stage::SaveCtx)
    };
    for (name, state) in [
        ("17, swapped before the swap", swapped),
        ("17 before 14", stopped_by(10)),
        ("17 before 13", running(0, 10)),
    ] {
        show(rt, name, status(state, a, 0))?;
    }
    Ok(())
}

fn main(rt: HostRuntime) -> io::Result<()> {
    let a = Plan::new(FRAME, &FRAME_A, &[]);
    ticks(&rt, &a)?;
    statuses(&rt, &a)?;
    too_late(&rt, &a)?;
    strange_at_tick(&rt, &a)?;
    strange_at_status(&rt, &a)
}
