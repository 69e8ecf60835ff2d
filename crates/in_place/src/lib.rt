// The original's calling form: `tick` and the three marks on a four-window state that is lent and changed in place. Each takes the
// state out, calls the by-value step of crate `switcher` and stores the state that it answers, so that a refused state stays as it
// was. They are free functions: an `impl` stands in the type's own crate.
#![tactic(auto)]

ghost use Rattle.std.specs.Prelude.{◌≡◌};
ghost use Rattle.switcher.specs.Switch.{tick_of, mark_saved_of, mark_swapped_of, mark_resumed_of};
ghost use Rattle.in_place.specs.InPlace.{told};

use refusal::Verdict;
use switcher::{Stepped, Switcher};

// What a caller is told; `done` is the original's `switched` and `ok`, false beside a refusal.
#[derive(Clone, Copy)]
pub struct Told {
    pub done: bool,
    pub verdict: Verdict,
}

// Leaves the state that a step answers where it was lent, and tells the rest.
fn stored(lent: &mut Switcher, stepped: Stepped) -> Told
    ensures { (result ≡ told stepped) × (lent.new ≡ stepped.state) }
{
    *lent = stepped.state;
    Told {
        done: stepped.done,
        verdict: stepped.verdict,
    }
}

pub fn tick(lent: &mut Switcher, t: u32) -> Told
    ensures { (result ≡ told (tick_of lent.old t)) × (lent.new ≡ (tick_of lent.old t).state) }
{
    let stepped = lent.tick(t);
    stored(lent, stepped)
}

pub fn mark_saved(lent: &mut Switcher) -> Told
    ensures { (result ≡ told (mark_saved_of lent.old)) × (lent.new ≡ (mark_saved_of lent.old).state) }
{
    let stepped = lent.mark_saved();
    stored(lent, stepped)
}

pub fn mark_swapped(lent: &mut Switcher) -> Told
    ensures { (result ≡ told (mark_swapped_of lent.old)) × (lent.new ≡ (mark_swapped_of lent.old).state) }
{
    let stepped = lent.mark_swapped();
    stored(lent, stepped)
}

pub fn mark_resumed(lent: &mut Switcher) -> Told
    ensures { (result ≡ told (mark_resumed_of lent.old)) × (lent.new ≡ (mark_resumed_of lent.old).state) }
{
    let stepped = lent.mark_resumed();
    stored(lent, stepped)
}
