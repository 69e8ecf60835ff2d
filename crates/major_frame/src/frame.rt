// What a frame is asked: its verdict, the last tick and the owner of a window, and the window of a tick.
ghost use Rattle.std.specs.Prelude.{◌≡◌, ◌+◌, ◌<◌, eqb};
ghost use Rattle.timeline.specs.Windows.{window_at};
ghost use Rattle.major_frame.specs.Frame.{FrameInv, partition_at, offset_at, budget_at, win_end, window_fault, frame_verdict, current_window, answer_of};

use crate::{LAST_WINDOW, MajorFrame, WINDOWS, window_end};
use refusal::{Refusal, Verdict};
use timeline::Located;

// The tests of one window that should start at `start`.
#[tactic(auto, unfolding(crate::specs::Frame::window_fault, refusal::specs::First::refuse_if, refusal::specs::First::or_else))]
fn window_fault(i: u32, start: u64, offset: u32, budget: u32) -> Verdict
    ensures { result ≡ window_fault i start offset budget }
{
    if budget == 0 {
        return Err(Refusal::ZeroBudget(i));
    }
    if offset as u64 != start {
        return Err(Refusal::WrongStart(i));
    }
    Ok(())
}

impl MajorFrame {
    // Tick t is the last of window i; no tick is the last of a window past the last.
    pub fn is_last_tick(self, i: u32, t: u32) -> bool
        ensures { result ≡ eqb (t + 1) (win_end self i) }
    {
        if i < WINDOWS {
            let at = i as usize;
            t as u64 + 1 == window_end(self.offset[at], self.budget[at])
        } else {
            false
        }
    }

    // Who owns window i; 0 past the last window.
    pub fn partition_at(self, i: u32) -> u32
        ensures { result ≡ partition_at self i }
    {
        self.partition_id.get(i as usize).copied().unwrap_or(0)
    }

    // Windows upward, then the frame's length.
    #[tactic(auto, using(crate::proofs::FrameLaws::check_goes_on, crate::proofs::FrameLaws::check_ends, crate::proofs::FrameLaws::check_at_end, crate::proofs::FrameLaws::length_accepted, crate::proofs::FrameLaws::length_refused), unfolding(crate::specs::Frame::frame_verdict, crate::specs::Frame::window_test))]
    pub fn check(self) -> Verdict
        ensures { result ≡ frame_verdict self }
    {
        let mut end = 0u64;
        for i in 0..WINDOWS {
            let offset = self.offset[i as usize];
            let budget = self.budget[i as usize];
            window_fault(i, end, offset, budget)?;
            end = window_end(offset, budget);
        }
        if end != self.frame_len as u64 {
            return Err(Refusal::WrongLength(LAST_WINDOW));
        }
        Ok(())
    }

    // Three ordered comparisons, as in the original.
    #[tactic(auto, unfolding(timeline::specs::Windows::window_at, timeline::specs::Windows::holdsb))]
    fn window_of(self, t: u32) -> u32
        requires frame_inv { FrameInv self }
        requires t_bound { t < self.frame_len }
        ensures { result ≡ window_at 4 (offset_at self) (budget_at self) t }
    {
        let offset = self.offset;
        if t < offset[1] {
            0
        } else if t < offset[2] {
            1
        } else if t < offset[3] {
            2
        } else {
            3
        }
    }

    // The window that holds tick t.
    #[tactic(auto, using(crate::proofs::FrameLaws::accepted_inv, crate::proofs::FrameLaws::lookup_refused, crate::proofs::FrameLaws::lookup_past, crate::proofs::FrameLaws::lookup_found))]
    fn find(self, t: u32) -> Result<u32, Refusal>
        ensures { answer_of result ≡ current_window self t }
    {
        self.check()?;
        if t >= self.frame_len {
            return Err(Refusal::TickPastFrame);
        }
        Ok(self.window_of(t))
    }

    // A lookup that is refused answers window 0.
    pub fn current_window(self, t: u32) -> Located<u32>
        ensures { result ≡ current_window self t }
    {
        match self.find(t) {
            Ok(window) => Located {
                window,
                verdict: Ok(()),
            },
            Err(r) => Located {
                window: 0,
                verdict: Err(r),
            },
        }
    }
}
