// The region words of a partition, and what a protection unit makes of them: the definitions are in specs/, the laws in proofs/. Here are
// only their types; crate `region` computes them.
#![tactic(auto)]

use refusal::Verdict;

// What goes into a slot's two registers.
#[repr(C)]
#[derive(Clone, Copy)]
pub struct Pair {
    pub first: u32,
    pub second: u32,
}

// The eight slots beside the refusal, all zero where one is (document 01), so no `Result`.
#[derive(Clone, Copy)]
pub struct Words {
    pub slots: [Pair; 8],
    pub verdict: Verdict,
}
