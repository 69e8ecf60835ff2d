// The machine's events on a state that crosses as eight words, whatever they are.
#![tactic(auto)]

ghost use Rattle.std.specs.Prelude.{◌≡◌};
ghost use Rattle.in_words.specs.Events.{strange, tick_in_words, status_in_words, left_words};

use plan::Plan;
use refusal::{Refusal, Verdict};
use state::{Answer, State};

// What words that are no state get: the plan's own refusal comes first.
#[tactic(auto, unfolding(refusal::specs::First::refuse_if))]
fn strange(plan: &Plan<'_>) -> Answer
    ensures { result ≡ strange plan.now }
{
    let verdict = refusal::or_refuse(plan.check(), false, Refusal::StrangeState);
    State::zeros().refused(verdict)
}

pub fn tick(words: [u32; 8], plan: &Plan<'_>, t: u32) -> Answer
    ensures { result ≡ tick_in_words plan.now words t }
{
    match wire::read_state(words) {
        Some(state) => switch::tick(state, plan, t),
        None => strange(plan),
    }
}

pub fn status(words: [u32; 8], plan: &Plan<'_>, status: u32) -> Answer
    ensures { result ≡ status_in_words plan.now words status }
{
    match wire::read_state(words) {
        Some(state) => switch::status(state, plan, status),
        None => strange(plan),
    }
}

// What is left where the words were lent.
#[tactic(auto, using(verdict::proofs::First::answers))]
pub fn left(verdict: Verdict, state: State, words: [u32; 8]) -> [u32; 8]
    ensures { result ≡ left_words verdict state words }
{
    let Ok(()) = verdict else {
        return words;
    };
    wire::state_words(state)
}
