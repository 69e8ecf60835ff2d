// The rows of one partition, in table order (document 01, "no partition has over 8 rows"). Whoever needs a partition's rows asks here and never
// walks the table.
#![tactic(auto)]

ghost use Rattle.std.specs.Prelude.{◌≡◌, ◌+◌, ◌≤◌, length};
ghost use Rattle.rows.specs.Rows.{max_rows_each, rows_of};
ghost use Rattle.rows.specs.Tests.{one_if_own};
ghost use Rattle.own.specs.Own.{packed, with_own, own_rows_of};

use plan::Plan;
use records::{PartitionNo, Row, nth_row};
use refusal::Refusal;

// The first `count` are the partition's rows; the others are zeros. An array, since nothing here is on a heap.
#[derive(Clone, Copy)]
pub struct OwnRows {
    pub rows: [Row; 8],
    pub count: u32,
}

const NO_ROW: Row = Row {
    partition: PartitionNo(0),
    base: 0,
    size: 0,
    access: 0,
};

impl OwnRows {
    const NONE: OwnRows = OwnRows {
        rows: [NO_ROW; 8],
        count: 0,
    };

    // One row more if it is the partition's.
    #[tactic(auto, unfolding(crate::specs::Own::with_own))]
    fn with_own(self, r: Row, partition: PartitionNo) -> OwnRows
        requires { self.count + one_if_own r partition.0 ≤ max_rows_each }
        ensures { result ≡ with_own self r partition.0 }
    {
        if r.partition.0 != partition.0 {
            return self;
        }
        let at = self.count as usize;
        let mut more = self;
        more.rows[at] = r;
        more.count += 1;
        more
    }
}

// The partition's rows among the first `count`.
#[tactic(auto, using(crate::proofs::OwnLaws::packed_count, crate::proofs::OwnLaws::own_step, rows::proofs::RowLaws::count_step, rows::proofs::RowLaws::count_mono), unfolding(rows::specs::Rows::rows_of, crate::specs::Own::packed, crate::specs::Own::padded))]
fn packed_rows(rows: &[u32], count: u32, partition: PartitionNo) -> OwnRows
    requires { length (rows_of rows.now partition.0 count) ≤ max_rows_each }
    ensures { result ≡ packed (rows_of rows.now partition.0 count) }
{
    let mut own = OwnRows::NONE;
    for j in 0..count {
        own = own.with_own(nth_row(rows, j), partition);
    }
    own
}

// The rows of a partition; a partition that has none, or that there is not, gets none.
#[tactic(auto, using(accepted::proofs::AcceptedLaws::accepted_all, crate::proofs::OwnLaws::owned_refused, crate::proofs::OwnLaws::owned_accepted))]
pub fn own_rows(plan: &Plan<'_>, partition: PartitionNo) -> Result<OwnRows, Refusal>
    ensures { result ≡ own_rows_of plan.now partition.0 }
{
    plan.check()?;
    let rows = plan.rows();
    Ok(packed_rows(rows, (rows.len() / Row::NUMBERS) as u32, partition))
}
