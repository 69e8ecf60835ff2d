// The rows of a plan by themselves: how many there may be, and 6 to 11 (document 01, "Refusal numbers and their place").
#![tactic(auto)]

ghost use Rattle.std.specs.Prelude.{◌≡◌};
ghost use Rattle.rows.specs.Tests.{wrong_row_count, rows_verdict};

use crate::tests::rows_fault;
use records::Row;
use refusal::{Refusal, Verdict};

mod tests;

const MAX_ROWS: usize = 128;

// Whether a list of so many numbers ends inside a row or holds too many.
#[tactic(auto, unfolding(crate::specs::Tests::wrong_row_count))]
pub fn wrong_row_count(numbers: usize) -> bool
    ensures { result ≡ wrong_row_count numbers }
{
    if numbers % Row::NUMBERS != 0 {
        return true;
    }
    MAX_ROWS < numbers / Row::NUMBERS
}

// 1, or the first fault of the rows upward.
#[tactic(auto, using(crate::proofs::TestLaws::miscounted))]
pub fn verdict_of(rows: &[u32]) -> Verdict
    ensures { result ≡ rows_verdict rows.now }
{
    if wrong_row_count(rows.len()) {
        return Err(Refusal::Counts);
    }
    rows_fault(rows, (rows.len() / Row::NUMBERS) as u32)
}
