// What holds of n windows that follow one another: the definitions are in specs/, the laws in proofs/. Of functions there is one, what follows a
// tick or a window. Its sum is made in 64 bits: 4294967295 has a next number too.
#![tactic(auto)]

ghost use Rattle.std.specs.Prelude.{◌≡◌};
ghost use Rattle.timeline.specs.Windows.{next_of};

use refusal::Verdict;

// Where a tick falls, in the kind of number that a frame's windows have. It is no `Result`: a lookup that is refused answers 0 (document 01).
#[derive(Clone, Copy)]
pub struct Located<W> {
    pub window: W,
    pub verdict: Verdict,
}

// What follows n of 0 to `count` - 1, that come round: of the ticks of a frame, or of its windows.
#[tactic(auto, using(crate::proofs::Laws::next_below, crate::proofs::Laws::next_past))]
pub fn next_of(count: u32, n: u32) -> u32
    ensures { result ≡ next_of count n }
{
    let next = n as u64 + 1;
    if next < count as u64 { n + 1 } else { 0 }
}
