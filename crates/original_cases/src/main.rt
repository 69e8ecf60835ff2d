// Replays a list of cases within the original's preconditions, and writes what the four-window port answers, a line a case: the file `stdout` has what the
// original's own bodies answered (tests/original says how the list was made, and what its numbers mean).
#![tactic(auto)]

use major_frame::MajorFrame;
use output::{end, put, put_flag, say, say_number, say_with};
use protocol::call_words;
use refusal::Verdict;
use run_switch::run_switch;
use std::io;
use switcher::{Stepped, SwPhase, Switcher};

mod read;

// No case but those of `check` is refused, so this line is never to be seen.
fn put_refusal(rt: &impl Print, verdict: Verdict) -> io::Result<()> {
    if let Err(r) = verdict {
        say_with(rt, b"refused ", r.number())?;
        say(rt, b" ")?;
    }
    Ok(())
}

fn put_state(rt: &impl Print, s: Switcher) -> io::Result<()> {
    say_number(rt, s.cur)?;
    put(rt, s.phase.number())?;
    put_flag(rt, s.swapped)
}

fn show_flag(rt: &impl Print, flag: bool) -> io::Result<()> {
    say_number(rt, u32::from(flag))
}

fn show_window(rt: &impl Print, f: MajorFrame, t: u32) -> io::Result<()> {
    let located = f.current_window(t);
    put_refusal(rt, located.verdict)?;
    say_number(rt, located.window)
}

fn show_new(rt: &impl Print, f: MajorFrame) -> io::Result<()> {
    let made = Switcher::new(f);
    put_refusal(rt, made.verdict)?;
    put_state(rt, made.state)
}

fn show_step(rt: &impl Print, r: Stepped) -> io::Result<()> {
    put_refusal(rt, r.verdict)?;
    show_flag(rt, r.done)?;
    say(rt, b" ")?;
    put_state(rt, r.state)
}

fn show_switch(rt: &impl Print, s: Switcher, save: u32, swap: u32, resume: u32) -> io::Result<()> {
    let r = run_switch(s, save, swap, resume);
    put_refusal(rt, r.verdict)?;
    put_state(rt, r.state)?;
    for call in r.calls {
        let words = call_words(call);
        put(rt, words.number)?;
        put(rt, words.partition)?;
    }
    Ok(())
}

fn phase_of(n: u32) -> SwPhase {
    match n {
        1 => SwPhase::SaveCtx,
        2 => SwPhase::ProgramRegions,
        3 => SwPhase::Resume,
        _ => SwPhase::Running,
    }
}

fn frame_of(c: [u32; 20]) -> MajorFrame {
    MajorFrame {
        partition_id: [c[1], c[2], c[3], c[4]],
        offset: [c[5], c[6], c[7], c[8]],
        budget: [c[9], c[10], c[11], c[12]],
        frame_len: c[13],
    }
}

fn state_of(c: [u32; 20]) -> Switcher {
    Switcher {
        frame: frame_of(c),
        cur: c[14],
        phase: phase_of(c[15]),
        swapped: c[16] == 1,
    }
}

fn show(rt: &impl Print, c: [u32; 20]) -> io::Result<()> {
    let s = state_of(c);
    let x = c[17];
    match c[0] {
        1 => show_flag(rt, s.frame.check().is_ok())?,
        2 => show_window(rt, s.frame, x)?,
        3 => show_new(rt, s.frame)?,
        4 => show_step(rt, s.tick(x))?,
        5 => show_step(rt, s.mark_saved())?,
        6 => show_step(rt, s.mark_swapped())?,
        7 => show_step(rt, s.mark_resumed())?,
        _ => show_switch(rt, s, x, c[18], c[19])?,
    }
    end(rt)
}

fn main(rt: HostRuntime) -> io::Result<()> {
    read::each_case(&rt)
}
