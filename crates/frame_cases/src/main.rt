// Document 01's cases for the frame of the four-window port, one to a line: the frames' verdicts, then lookups in frame A. A verdict is its number
// and place, 0 0 where accepted.
#![tactic(auto)]

use major_frame::MajorFrame;
use output::{end, put, put_verdict, say, say_with};
use std::io;

// Owners 0, 1, 0, 2, as in frame A.
fn frame(offset: [u32; 4], budget: [u32; 4], frame_len: u32) -> MajorFrame {
    MajorFrame {
        partition_id: [0, 1, 0, 2],
        offset,
        budget,
        frame_len,
    }
}

fn frame_a() -> MajorFrame {
    frame([0, 10, 30, 35], [10, 20, 5, 15], 50)
}

fn show_frame(rt: &impl Print, name: &[u8], f: MajorFrame) -> io::Result<()> {
    say(rt, name)?;
    put_verdict(rt, f.check())?;
    end(rt)
}

fn show_frames(rt: &impl Print) -> io::Result<()> {
    show_frame(rt, b"A:", frame_a())?;
    let wraps = frame([0, 1, 2, 4294967295], [1, 1, 4294967293, 1], 0);
    show_frame(rt, b"sum 2^32:", wraps)?;
    let longest = frame([0, 1, 2, 4294967294], [1, 1, 4294967292, 1], 4294967295);
    show_frame(rt, b"longest:", longest)?;
    let late = frame([5, 10, 30, 35], [0, 20, 5, 15], 50);
    show_frame(rt, b"2 before 3:", late)?;
    let gap = frame([0, 10, 31, 35], [10, 20, 4, 15], 50);
    show_frame(rt, b"gap:", gap)?;
    let empty = frame([0, 10, 30, 35], [10, 20, 5, 0], 51);
    show_frame(rt, b"2 before 5:", empty)?;
    let long = frame([0, 10, 30, 35], [10, 20, 5, 15], 51);
    show_frame(rt, b"length:", long)
}

fn show_lookups(rt: &impl Print) -> io::Result<()> {
    for t in [9, 10, 49, 50] {
        let located = frame_a().current_window(t);
        say_with(rt, b"at ", t)?;
        say(rt, b":")?;
        put_verdict(rt, located.verdict)?;
        put(rt, located.window)?;
        end(rt)?;
    }
    Ok(())
}

fn main(rt: HostRuntime) -> io::Result<()> {
    show_frames(&rt)?;
    show_lookups(&rt)
}
