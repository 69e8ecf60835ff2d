// One row by itself, and two of them: 6 to 9, and whether two rows clash (document 01, "A plan", "Refusal numbers and their place").
#![tactic(auto)]

ghost use Rattle.std.specs.Prelude.{◌≡◌};
ghost use Rattle.row.specs.Tests.{shares_address, clashes, row_fault};

use records::{PartitionNo, Row};
use refusal::{Refusal, Verdict};

const MIN_SIZE: u32 = 32;

const MAX_ACCESS: u32 = 2;

// The tests of row i by itself, which is r.
#[tactic(auto, unfolding(crate::specs::Tests::row_fault, refusal::specs::First::refuse_if, refusal::specs::First::or_else))]
pub fn row_fault(i: u32, r: Row) -> Verdict
    ensures { result ≡ row_fault i r }
{
    if PartitionNo::MAX < r.partition.0 {
        return Err(Refusal::UnknownPartition(i));
    }
    if r.size < MIN_SIZE {
        return Err(Refusal::BadSize(i));
    }
    if r.size.count_ones() != 1 {
        return Err(Refusal::BadSize(i));
    }
    if r.base % r.size != 0 {
        return Err(Refusal::BadBase(i));
    }
    if MAX_ACCESS < r.access {
        return Err(Refusal::BadAccess(i));
    }
    Ok(())
}

// The distance from b's base up to a's end decides: past both sizes together one row ends before the other starts, with b first or, where the
// difference wraps, with a first. So two rows that lie apart take one test, whichever comes first. An end can be 4294967296; an empty row shares
// nothing.
fn shares_address(a: Row, b: Row) -> bool
    ensures { result ≡ shares_address a b }
{
    let a_size = a.size as u64;
    let b_size = b.size as u64;
    let a_end = a.base as u64 + a_size;
    let distance = a_end.wrapping_sub(b.base as u64);
    if a_size + b_size <= distance {
        return false;
    }
    (a_size != 0) & (b_size != 0) & (distance != 0)
}

// Whether two rows share an address, and belong to one partition or at least one is writable.
pub fn clashes(a: Row, b: Row) -> bool
    ensures { result ≡ clashes a b }
{
    let one_partition = a.partition.0 == b.partition.0;
    let a_writable = a.access == Row::WRITABLE;
    let b_writable = b.access == Row::WRITABLE;
    if !shares_address(a, b) {
        return false;
    }
    one_partition | a_writable | b_writable
}
