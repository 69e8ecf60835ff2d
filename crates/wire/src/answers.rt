// Verdicts and answers in words.
ghost use Rattle.std.specs.Prelude.{◌≡◌};
ghost use Rattle.refusal.specs.Table.{host_code_of};
ghost use Rattle.wire.specs.Answers.{twos, verdict_words, answer_words};

use protocol::call_words;
use refusal::{Refusal, Verdict};
use state::Answer;

// Two's complement in 32 bits.
fn code_word(r: Refusal) -> u32
    ensures { result ≡ twos (host_code_of r) }
{
    r.host_code().cast_unsigned()
}

pub fn verdict_words(verdict: Verdict) -> [u32; 3]
    ensures { result ≡ verdict_words verdict }
{
    match verdict {
        Ok(()) => [0, 0, 0],
        Err(r) => {
            let number = r.number();
            let place = r.place();
            [number, place, code_word(r)]
        }
    }
}

#[tactic(auto, using(crate::proofs::AnswerLaws::begins))]
pub fn answer_words(answer: Answer) -> [u32; 5]
    ensures { result ≡ answer_words answer }
{
    let [number, place, code] = verdict_words(answer.verdict);
    let asked = call_words(answer.call);
    [number, place, code, asked.number, asked.partition]
}
