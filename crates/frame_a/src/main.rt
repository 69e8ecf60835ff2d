// Frame A of document 01: the check's verdict, and the window at ticks 9, 10, 49 and 50; the region words of partition 1, for a row of
// 1024 writable bytes. Then the same frame with budget 0 in window 2.
#![tactic(auto)]

use output::{Outcome, say_line};
use plan::{Frame, Plan};
use records::PartitionNo;
use std::io;

const FRAME: Frame = Frame { length: 50 };

// Owner, offset and budget of each window.
const FRAME_A: [u32; 12] = [0, 0, 10, 1, 10, 20, 0, 30, 5, 2, 35, 15];

const ONE_BUDGET_ZERO: [u32; 12] = [0, 0, 10, 1, 10, 20, 0, 30, 0, 2, 35, 15];

// Partition, base, size and access.
const ROW: [u32; 4] = [1, 0x20000000, 1024, 1];

fn print_check(rt: &impl Print, name: &str, windows: &[u32]) -> io::Result<()> {
    let plan = Plan::new(FRAME, windows, &[]);
    say_line(rt, format_args!("{name}\t{}", Outcome(plan.check())))
}

fn print_windows(rt: &impl Print) -> io::Result<()> {
    let plan = Plan::new(FRAME, &FRAME_A, &[]);
    for t in [9, 10, 49, 50] {
        let located = lookup::lookup(&plan, t);
        let outcome = Outcome(located.verdict);
        let window = located.window.0;
        say_line(rt, format_args!("tick {t}\t{outcome}\twindow {window}"))?;
    }
    Ok(())
}

fn print_words(rt: &impl Print) -> io::Result<()> {
    let plan = Plan::new(FRAME, &FRAME_A, &ROW);
    let words = region::words_of(&plan, PartitionNo(1));
    say_line(rt, format_args!("partition 1\t{}", Outcome(words.verdict)))?;
    for (i, slot) in words.slots.iter().enumerate().take(2) {
        let (first, second) = (slot.first, slot.second);
        say_line(
            rt,
            format_args!("partition 1, slot {i}\t{first:08x}\t{second:08x}"),
        )?;
    }
    Ok(())
}

fn main(rt: HostRuntime) -> io::Result<()> {
    print_check(&rt, "frame A", &FRAME_A)?;
    print_windows(&rt)?;
    print_words(&rt)?;
    print_check(&rt, "budget 0 in window 2", &ONE_BUDGET_ZERO)
}
