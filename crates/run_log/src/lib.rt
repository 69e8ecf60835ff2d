// The log of a run: each call is two words, 1 save, 2 swap, 3 resume, then the partition (document 01, "The machine").
#![tactic(auto)]

ghost use Rattle.std.specs.Prelude.{◌≡◌};
ghost use Rattle.run_log.specs.Log.{too_short, calls_logged, logged};

use protocol::{Call, call_words};

// Words that a log needs with no tick, and with each tick.
const FIRST: usize = 4;

const EACH: usize = 6;

// How many words a call takes.
const CALL: usize = 2;

// Whether a log of so many words is too short for so many ticks: 4 + 6 x ticks, which no list is too long for.
pub fn too_short(words: usize, ticks: usize) -> bool
    ensures { result ≡ too_short words ticks }
{
    if words < FIRST {
        return true;
    }
    (words - FIRST) / EACH < ticks
}

// The log with one call more, after so many; no call, or no room for one, leaves it as it is. How many calls it then has.
pub fn put_call(log: &mut [u32], calls: usize, call: Option<Call>) -> usize
    ensures { (result ≡ calls_logged log.old calls call) × (log.new ≡ logged log.old calls call) }
{
    if call.is_none() {
        return calls;
    }
    if log.len() / CALL <= calls {
        return calls;
    }
    let words = call_words(call);
    let at = calls * CALL;
    log[at] = words.number;
    log[at + 1] = words.partition;
    calls + 1
}
