// Document 01's cases on plans, one to a line, with some neighbours: the verdict's number and place, 0 0 where accepted. A line on a tick
// has the window too.
#![tactic(auto)]

use output::{Numbers, say_line, say_part};
use plan::{Frame, Plan};
use std::io;

const FRAME_A: [u32; 12] = [0, 0, 10, 1, 10, 20, 0, 30, 5, 2, 35, 15];

fn plan_of<'a>(length: u32, windows: &'a [u32], rows: &'a [u32]) -> Plan<'a> {
    Plan::new(Frame { length }, windows, rows)
}

fn show(rt: &impl Print, name: &str, plan: &Plan<'_>) -> io::Result<()> {
    say_line(rt, format_args!("{name}: {}", Numbers(plan.check())))
}

fn show_windows(rt: &impl Print, name: &str, length: u32, windows: &[u32]) -> io::Result<()> {
    show(rt, name, &plan_of(length, windows, &[]))
}

fn windows(rt: &impl Print) -> io::Result<()> {
    show_windows(rt, "A", 50, &FRAME_A)?;
    show_windows(rt, "offset 5 and budget 0", 50, &[0, 5, 0])?;
    show_windows(
        rt,
        "budget 0 in window 2",
        50,
        &[0, 0, 10, 1, 10, 20, 0, 30, 0, 2, 35, 15],
    )?;
    show_windows(rt, "a gap before window 1", 50, &[0, 0, 10, 16, 11, 39])?;
    show_windows(rt, "owner 16", 50, &[0, 0, 10, 16, 10, 40])
}

fn lengths(rt: &impl Print) -> io::Result<()> {
    show_windows(rt, "an end below the length", 51, &FRAME_A)?;
    show_windows(
        rt,
        "a sum of 2^32",
        0,
        &[0, 0, 1, 1, 1, 1, 0, 2, 4294967293, 2, 4294967295, 1],
    )?;
    show_windows(
        rt,
        "the longest",
        4294967295,
        &[0, 0, 1, 1, 1, 1, 0, 2, 4294967292, 2, 4294967294, 1],
    )
}

// Rows beside the windows of frame A, which are owned by partitions 0, 1 and 2.
fn show_rows(rt: &impl Print, name: &str, rows: &[u32]) -> io::Result<()> {
    show(rt, name, &plan_of(50, &FRAME_A, rows))
}

fn rows(rt: &impl Print) -> io::Result<()> {
    for (name, row) in [
        ("partition 16", [16, 0x20000000, 1024, 1]),
        ("size 0", [0, 0x20000000, 0, 1]),
        ("size 16", [0, 0x20000000, 16, 1]),
        ("size 96", [0, 0x20000000, 96, 1]),
        ("base 0x20000010, size 32", [0, 0x20000010, 32, 1]),
        ("base 0xFFFFFFE0, size 32", [0, 0xFFFFFFE0, 32, 1]),
        ("access 3", [0, 0x20000000, 1024, 3]),
        ("base and access wrong", [0, 0x20000010, 32, 3]),
        ("the half of the addresses", [0, 0x80000000, 0x80000000, 1]),
    ] {
        show_rows(rt, name, &row)?;
    }
    Ok(())
}

// After a row of partition 1, of 1024 bytes from 0x20000000 on, one of 32 bytes.
fn clashes(rt: &impl Print) -> io::Result<()> {
    for (name, first_access, partition, base, access) in [
        ("base 0x200003E0", 1, 2, 0x200003E0, 0),
        ("base 0x20000400", 1, 2, 0x20000400, 0),
        ("the writable row second", 2, 2, 0x200003E0, 1),
        ("readers of two partitions", 0, 2, 0x200003E0, 2),
        ("readers of one partition", 0, 1, 0x200003E0, 0),
    ] {
        let first = [1, 0x20000000, 1024, first_access];
        let rows = [first, [partition, base, 32, access]];
        show_rows(rt, name, rows.as_flattened())?;
    }
    show_rows(
        rt,
        "a clash, then a bad size",
        &[1, 0, 32, 1, 2, 0, 32, 0, 2, 64, 16, 0],
    )
}

fn put_window(rt: &impl Print, plan: &Plan<'_>, t: u32) -> io::Result<()> {
    let located = lookup::lookup(plan, t);
    say_line(
        rt,
        format_args!(" {} {}", Numbers(located.verdict), located.window.0),
    )
}

fn ticks(rt: &impl Print) -> io::Result<()> {
    let a = plan_of(50, &FRAME_A, &[]);
    for t in [0, 9, 10, 49, 50, 4294967295] {
        say_part(rt, format_args!("tick {t}:"))?;
        put_window(rt, &a, t)?;
    }
    say_part(rt, "tick 50 of a plan refused:")?;
    put_window(rt, &plan_of(50, &[0, 0, 10, 1, 10, 39], &[]), 50)
}

fn main(rt: HostRuntime) -> io::Result<()> {
    windows(&rt)?;
    lengths(&rt)?;
    rows(&rt)?;
    clashes(&rt)?;
    ticks(&rt)
}
