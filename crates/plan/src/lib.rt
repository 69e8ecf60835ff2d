// A plan: the time windows of a frame and the memory rows of its partitions (document 01, "A plan"). Its lists are lent: three numbers a window, four
// a row.
#![tactic(auto)]

ghost use Rattle.std.specs.Prelude.{◌≡◌};
ghost use Rattle.plan.specs.Plan.{plan_of, frame_length};

use std::marker::Model;

mod check;

// What is said of the frame as a whole.
#[repr(C)]
#[derive(Clone, Copy)]
pub struct Frame {
    pub length: u32,
}

impl Frame {
    // The largest window count.
    pub const MAX_WINDOWS: usize = 64;
}

// What every entry point is asked about. It may be any, and whoever goes by it checks it first.
#[derive(Drop)]
pub struct Plan<'a> {
    frame: Frame,
    windows: &'a [u32],
    rows: &'a [u32],
}

// Contracts see the frame and what the lists hold.
impl<'a> Model for Plan<'a> {
    ghost use Rattle.plan.specs.Plan.{Plan, plan_of};

    ghost Value = { Plan };

    ghost view = { λ p. plan_of p.frame p.windows.now p.rows.now };
}

impl<'a> Plan<'a> {
    pub fn new(frame: Frame, windows: &'a [u32], rows: &'a [u32]) -> Plan<'a>
        ensures { result ≡ plan_of frame windows.now rows.now }
    {
        Plan {
            frame,
            windows,
            rows,
        }
    }

    pub fn length(&self) -> u32
        ensures { result ≡ frame_length self.now }
    {
        self.frame.length
    }

    pub fn windows(&self) -> &'a [u32]
        ensures { result.now ≡ self.now.windows }
    {
        self.windows
    }

    pub fn rows(&self) -> &'a [u32]
        ensures { result.now ≡ self.now.rows }
    {
        self.rows
    }
}
