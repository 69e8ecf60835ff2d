// What crosses to a host that knows numbers only: verdicts, answers and states in words of 32 bits, and states back from words.
#![tactic(auto)]

mod answers;
mod states;

pub use answers::{answer_words, verdict_words};
pub use states::{read_state, state_words};
