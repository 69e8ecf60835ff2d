// The check of a plan: its counts, its windows upward, its length, its rows upward. The first fault is the answer.
ghost use Rattle.std.specs.Prelude.{◌≡◌, ◌+◌, ◌*◌, ◌≤◌, ◌<◌, length};
ghost use Rattle.verdict.specs.First.{first_fault};
ghost use Rattle.records.specs.Records.{nth_window};
ghost use Rattle.plan.specs.Faults.{wrong_counts, verdict_of};
ghost use Rattle.plan.specs.Parts.{window_fault, window_test};

use crate::{Frame, Plan};
use records::{PartitionNo, Window, window_end};
use refusal::{Refusal, Verdict};

// Lists of so many numbers: a torn record, or too few or too many.
#[tactic(auto, unfolding(crate::specs::Faults::wrong_counts))]
fn wrong_counts(window_numbers: usize, row_numbers: usize) -> bool
    ensures { result ≡ wrong_counts window_numbers row_numbers }
{
    if window_numbers % Window::NUMBERS != 0 {
        return true;
    }
    if window_numbers / Window::NUMBERS == 0 {
        return true;
    }
    if Frame::MAX_WINDOWS < window_numbers / Window::NUMBERS {
        return true;
    }
    rows::wrong_row_count(row_numbers)
}

// Window i of the list, which has it: unlike `nth_window` no index is tested.
fn window_in(windows: &[u32], i: u32) -> Window
    requires { i * 3 + 2 < length windows.now }
    ensures { result ≡ nth_window windows.now i }
{
    let at = i as usize * Window::NUMBERS;
    let owner = PartitionNo(windows[at]);
    Window {
        owner,
        offset: windows[at + 1],
        budget: windows[at + 2],
    }
}

// The tests of one window that should start at `start`.
#[tactic(auto, unfolding(crate::specs::Parts::window_fault, refusal::specs::First::refuse_if, refusal::specs::First::or_else))]
fn window_fault(i: u32, start: u64, w: Window) -> Verdict
    ensures { result ≡ window_fault i start w }
{
    let offset = w.offset as u64;
    let owner = w.owner.0;
    if w.budget == 0 {
        return Err(Refusal::ZeroBudget(i));
    }
    if offset != start {
        return Err(Refusal::WrongStart(i));
    }
    if PartitionNo::MAX < owner {
        return Err(Refusal::UnknownOwner(i));
    }
    Ok(())
}

// The first fault among the first `count` windows.
#[tactic(auto, using(verdict::proofs::First::starts, verdict::proofs::First::goes_on, verdict::proofs::First::stops, verdict::proofs::First::ends), unfolding(crate::specs::Parts::window_test))]
fn windows_fault(windows: &[u32], count: u32) -> Verdict
    requires { count * 3 ≤ length windows.now }
    ensures { result ≡ first_fault (window_test windows.now) 0 count }
{
    let mut start: u64 = 0;
    for i in 0..count {
        let w = window_in(windows, i);
        window_fault(i, start, w)?;
        start = window_end(w);
    }
    Ok(())
}

impl Plan<'_> {
    #[tactic(auto, using(crate::proofs::CheckLaws::rows_decide))]
    pub fn check(&self) -> Verdict
        ensures { result ≡ verdict_of self.now }
    {
        let windows = self.windows;
        let rows = self.rows;
        if wrong_counts(windows.len(), rows.len()) {
            return Err(Refusal::Counts);
        }
        let count = (windows.len() / Window::NUMBERS) as u32;
        windows_fault(windows, count)?;
        let last = count - 1;
        let end = window_end(window_in(windows, last));
        if end != self.frame.length as u64 {
            return Err(Refusal::WrongLength(last));
        }
        rows::verdict_of(rows)
    }
}
