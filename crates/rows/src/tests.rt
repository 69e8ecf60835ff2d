// The tests of the rows upward: each by itself, then against those before it.
ghost use Rattle.std.specs.Prelude.{◌≡◌, ◌+◌, ◌*◌, ◌≤◌, ◌<◌, length};
ghost use Rattle.verdict.specs.First.{first_fault};
ghost use Rattle.records.specs.Records.{nth_row};
ghost use Rattle.rows.specs.Rows.{rows_of};
ghost use Rattle.rows.specs.Tests.{clashes_before, row_test};
ghost use Rattle.rows.specs.Carried.{earlier_fault, lowest_base, largest_end};

use records::{PartitionNo, Row};
use refusal::{Refusal, Verdict};
use row::{clashes, row_fault};

const MAX_ROWS_EACH: u32 = 8;

const PAST_ADDRESSES: u64 = 0x1_0000_0000;

// Row i of the list, which has it: unlike `nth_row` no index is tested.
fn row_in(rows: &[u32], i: u32) -> Row
    requires { i * 4 + 3 < length rows.now }
    ensures { result ≡ nth_row rows.now i }
{
    let at = i as usize * Row::NUMBERS;
    let partition = PartitionNo(rows[at]);
    Row {
        partition,
        base: rows[at + 1],
        size: rows[at + 2],
        access: rows[at + 3],
    }
}

// Whether row i clashes with one before it: a function of its own in the machine code too, so that where its loop lies, and how fast it runs, does
// not depend on what is written around it.
#[tactic(auto, using(verdict::proofs::First::starts, verdict::proofs::First::goes_on, verdict::proofs::First::stops, verdict::proofs::First::ends), unfolding(crate::specs::Tests::clash_test, crate::specs::Tests::clashes_before, refusal::specs::First::refuse_if))]
#[inline(never)]
fn clashes_before(rows: &[u32], i: u32) -> Verdict
    requires { i * 4 + 3 < length rows.now }
    ensures { result ≡ clashes_before rows.now i }
{
    let b = row_in(rows, i);
    for j in 0..i {
        if clashes(row_in(rows, j), b) {
            return Err(Refusal::Clash(i));
        }
    }
    Ok(())
}

// 10 and 11 of row i, which is b. `earlier` rows before it are of its partition; every row before it lies from `lowest` up and below `highest`, so
// that one past all of them is held against none.
#[tactic(auto, using(crate::proofs::CarriedLaws::row_is_ninth))]
fn among_earlier(rows: &[u32], i: u32, b: Row, earlier: u32, lowest: u64, highest: u64) -> Verdict
    requires i_in_bounds { i * 4 + 3 < length rows.now }
    requires b_value { b ≡ nth_row rows.now i }
    requires earlier_value { earlier ≡ length (rows_of rows.now b.partition.0 i) }
    requires lowest_value { (lowest ≡ lowest_base rows.now i) × (highest ≡ largest_end rows.now i) }
    ensures { result ≡ earlier_fault rows.now i }
{
    if earlier == MAX_ROWS_EACH {
        return Err(Refusal::NinthRow(i));
    }
    let base = b.base as u64;
    let end = base + b.size as u64;
    if highest <= base {
        return Ok(());
    }
    if end <= lowest {
        return Ok(());
    }
    clashes_before(rows, i)
}

// The first fault among the first `count` rows. The loop carries what the rows before say of the next one: how many each partition has, their smallest
// base and their largest end, which can be 4294967296.
#[tactic(auto, using(verdict::proofs::First::starts, verdict::proofs::First::goes_on, verdict::proofs::First::stops, verdict::proofs::First::ends, row::proofs::TestLaws::row_accepted, crate::proofs::RowLaws::count_le, crate::proofs::CarriedLaws::none_carried, crate::proofs::CarriedLaws::one_carried, crate::proofs::CarriedLaws::row_refused, crate::proofs::CarriedLaws::row_passes))]
pub(crate) fn rows_fault(rows: &[u32], count: u32) -> Verdict
    requires { count * 4 ≤ length rows.now }
    ensures { result ≡ first_fault (row_test rows.now) 0 count }
{
    let mut counts = [0u32; 16];
    let mut lowest: u64 = PAST_ADDRESSES;
    let mut highest: u64 = 0;
    for i in 0..count {
        let r = row_in(rows, i);
        row_fault(i, r)?;
        let partition = r.partition.0 as usize;
        let earlier = counts[partition];
        among_earlier(rows, i, r, earlier, lowest, highest)?;
        counts[partition] = earlier + 1;
        let base = r.base as u64;
        lowest = lowest.min(base);
        highest = highest.max(base + r.size as u64);
    }
    Ok(())
}
