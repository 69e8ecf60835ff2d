// The check, the lookup and the region words.
ghost use Rattle.std.specs.Prelude.{◌≡◌};
ghost use Rattle.plan.specs.Plan.{frame_of, plan_of};
ghost use Rattle.plan.specs.Faults.{verdict_of};
ghost use Rattle.lookup.specs.Lookup.{lookup_of};
ghost use Rattle.words.specs.Words.{words_of};
ghost use Rattle.wire.specs.Answers.{verdict_words};
ghost use Rattle.host.specs.Numbers.{located_words, region_words};

use plan::{Frame, Plan};
use records::{PartitionNo, WindowNo};
use timeline::Located;
use words::Words;

#[tactic(auto, using(wire::proofs::AnswerLaws::begins))]
fn located_words(located: Located<WindowNo>) -> [u32; 4]
    ensures { result ≡ located_words located }
{
    let [number, place, code] = wire::verdict_words(located.verdict);
    [number, place, code, located.window.0]
}

#[tactic(auto, using(wire::proofs::AnswerLaws::begins))]
fn region_words(words: Words) -> [u32; 19]
    ensures { result ≡ region_words words }
{
    let [number, place, code] = wire::verdict_words(words.verdict);
    let [a, b, c, d, e, f, g, h] = words.slots;
    [
        number, place, code, a.first, a.second, b.first, b.second, c.first, c.second, d.first,
        d.second, e.first, e.second, f.first, f.second, g.first, g.second, h.first, h.second,
    ]
}

#[unsafe(no_mangle)]
pub extern "C" fn shillingnook_check(
    length: u32,
    windows: &[u32],
    rows: &[u32],
    answer: &mut [u32; 3],
)
    ensures { answer.new ≡ verdict_words (verdict_of (plan_of (frame_of length) windows.now rows.now)) }
{
    let plan = Plan::new(Frame { length }, windows, rows);
    *answer = wire::verdict_words(plan.check());
}

#[unsafe(no_mangle)]
pub extern "C" fn shillingnook_lookup(
    length: u32,
    windows: &[u32],
    rows: &[u32],
    tick: u32,
    answer: &mut [u32; 4],
)
    ensures { answer.new ≡ located_words (lookup_of (plan_of (frame_of length) windows.now rows.now) tick) }
{
    let plan = Plan::new(Frame { length }, windows, rows);
    *answer = located_words(lookup::lookup(&plan, tick));
}

#[unsafe(no_mangle)]
pub extern "C" fn shillingnook_words(
    length: u32,
    windows: &[u32],
    rows: &[u32],
    partition: u32,
    answer: &mut [u32; 19],
)
    ensures { answer.new ≡ region_words (words_of (plan_of (frame_of length) windows.now rows.now) partition) }
{
    let plan = Plan::new(Frame { length }, windows, rows);
    *answer = region_words(region::words_of(&plan, PartitionNo(partition)));
}
