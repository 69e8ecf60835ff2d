// Document 01's cases on region words, with some neighbours, beside the windows of frame A: the verdict, then the eight pairs in
// hexadecimal.
#![tactic(auto)]

use output::{Numbers, end, say_part};
use plan::{Frame, Plan};
use records::PartitionNo;
use std::io;

const FRAME_A: [u32; 12] = [0, 0, 10, 1, 10, 20, 0, 30, 5, 2, 35, 15];

// Rows of partition 0 and, between them, one of partition 1.
const FOUR_ROWS: [u32; 16] = [
    0, 0x20000000, 1024, 1, 1, 0x20000400, 32, 1, 0, 0x08000000, 65536, 2, 0, 0x40000000, 32, 0,
];

// Nine times the same row but for its base: the first eight are partition 2's, the last is partition 1's.
const EIGHT_AND_ONE: [u32; 36] = [
    2, 0, 32, 1, 2, 32, 32, 1, 2, 64, 32, 1, 2, 96, 32, 1, 2, 128, 32, 1, 2, 160, 32, 1, 2, 192,
    32, 1, 2, 224, 32, 1, 1, 256, 32, 1,
];

fn show(rt: &impl Print, name: &str, rows: &[u32], partition: u32) -> io::Result<()> {
    let plan = Plan::new(Frame { length: 50 }, &FRAME_A, rows);
    let words = region::words_of(&plan, PartitionNo(partition));
    say_part(rt, format_args!("{name}: {}", Numbers(words.verdict)))?;
    for slot in words.slots {
        say_part(rt, format_args!(" {:08x}:{:08x}", slot.first, slot.second))?;
    }
    end(rt)
}

fn main(rt: HostRuntime) -> io::Result<()> {
    show(&rt, "no rows", &[], 0)?;
    show(&rt, "three rows of partition 0", &FOUR_ROWS, 0)?;
    show(&rt, "one row of partition 1", &FOUR_ROWS, 1)?;
    show(&rt, "none of partition 15", &FOUR_ROWS, 15)?;
    show(&rt, "partition 16", &FOUR_ROWS, 16)?;
    show(&rt, "partition 4294967295", &FOUR_ROWS, 4294967295)?;
    show(&rt, "eight rows", &EIGHT_AND_ONE, 2)?;
    show(&rt, "the ninth row of another", &EIGHT_AND_ONE, 1)?;
    for (name, row, partition) in [
        ("the last 32 bytes", [0, 0xFFFFFFE0, 32, 1], 0),
        ("the upper half", [0, 0x80000000, 0x80000000, 2], 0),
        ("a row refused", [0, 0x20000000, 16, 1], 0),
        ("a row refused, partition 16", [0, 0x20000000, 16, 1], 16),
    ] {
        show(&rt, name, &row, partition)?;
    }
    Ok(())
}
