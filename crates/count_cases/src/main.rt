// Document 01's cases on how long the lists of a plan may be, one to a line, with some neighbours: the verdict's number and place, 0 0 where
// accepted.
#![tactic(auto)]

ghost use Rattle.std.specs.Prelude.{◌<◌};

use output::{Numbers, say_line};
use plan::{Frame, Plan};
use std::io;

fn show(rt: &impl Print, name: &str, plan: &Plan<'_>) -> io::Result<()> {
    say_line(rt, format_args!("{name}: {}", Numbers(plan.check())))
}

// Record i of every list here starts with a partition, i * 32, 32 and 1: a window of 32 ticks, or a writable row of 32 bytes.
fn number(i: usize, field: usize, partitions: usize) -> u32
    requires record { i < 516 }
    requires partitions { 0 < partitions }
{
    match field {
        0 => (i % partitions) as u32,
        1 => (i * 32) as u32,
        2 => 32,
        _ => 1,
    }
}

// Windows if the records are three numbers wide, rows if four; of so many partitions in turn, from 0 on.
fn records(width: usize, partitions: usize) -> [u32; 516]
    requires width { 0 < width }
    requires partitions { 0 < partitions }
{
    let mut list = [0u32; 516];
    for (j, n) in list.iter_mut().enumerate() {
        *n = number(j / width, j % width, partitions);
    }
    list
}

// The first n numbers of a list, or all.
fn first(list: &[u32], n: usize) -> &[u32] {
    &list[..n.min(list.len())]
}

fn window_counts(rt: &impl Print) -> io::Result<()> {
    let windows = records(3, 16);
    for (name, length, n) in [
        ("no window", 0, 0),
        ("one window", 32, 3),
        ("64 windows", 2048, 192),
        ("65 windows", 2080, 195),
        ("a window without its budget", 32, 5),
    ] {
        let plan = Plan::new(Frame { length }, first(&windows, n), &[]);
        show(rt, name, &plan)?;
    }
    Ok(())
}

// Beside sixteen windows, so that each partition owns one.
fn show_rows(rt: &impl Print, name: &str, rows: &[u32]) -> io::Result<()> {
    let windows = records(3, 16);
    let plan = Plan::new(Frame { length: 512 }, first(&windows, 48), rows);
    show(rt, name, &plan)
}

fn row_counts(rt: &impl Print) -> io::Result<()> {
    let rows = records(4, 16);
    let of_one = records(4, 1);
    show_rows(rt, "128 rows", first(&rows, 512))?;
    show_rows(rt, "129 rows", &rows)?;
    show_rows(rt, "a row without its access", first(&rows, 7))?;
    show_rows(rt, "eight rows of partition 0", first(&of_one, 32))?;
    show_rows(rt, "nine rows of partition 0", first(&of_one, 36))
}

fn main(rt: HostRuntime) -> io::Result<()> {
    window_counts(&rt)?;
    row_counts(&rt)
}
