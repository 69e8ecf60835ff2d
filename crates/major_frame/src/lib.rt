// The original's major frame of four windows under its own names, by value: its check, and the window that a tick falls in.
// Every function takes any frame, and refuses what it cannot use.
#![tactic(auto)]

ghost use Rattle.std.specs.Prelude.{◌≡◌, ◌+◌};

mod frame;

pub const MAX_WINDOWS: usize = 4;

// The same for window numbers, which are u32, and the last of them.
pub const WINDOWS: u32 = MAX_WINDOWS as u32;

pub const LAST_WINDOW: u32 = WINDOWS - 1;

// Three arrays side by side, as in the original.
#[derive(Clone, Copy)]
pub struct MajorFrame {
    pub partition_id: [u32; MAX_WINDOWS],
    pub offset: [u32; MAX_WINDOWS],
    pub budget: [u32; MAX_WINDOWS],
    pub frame_len: u32,
}

// The sum is made in 64 bits, so that 4294967295 + 1 is not taken for 0.
pub fn window_end(offset: u32, budget: u32) -> u64
    ensures { result ≡ offset + budget }
{
    offset as u64 + budget as u64
}
