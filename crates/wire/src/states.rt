// States in words, and back.
ghost use Rattle.std.specs.Prelude.{◌≡◌};
ghost use Rattle.wire.specs.States.{state_words, stage_at, cause_at, phase_at, read_state};

use protocol::{Cause, Phase, PhaseWords, Stage};
use records::WindowNo;
use state::State;

pub fn state_words(state: State) -> [u32; 8]
    ensures { result ≡ state_words state }
{
    let w = state.phase.words();
    let mark = u32::from(state.swapped);
    [
        state.current.0,
        state.target.0,
        state.due,
        mark,
        w.phase,
        w.stage,
        w.cause,
        w.word,
    ]
}

// A number that no stage has is taken for Running here: the words are held against those of what they were taken for.
fn stage_at(n: u32) -> Stage
    ensures { result ≡ stage_at n }
{
    match n {
        1 => Stage::SaveCtx,
        2 => Stage::ProgramRegions,
        3 => Stage::Resume,
        _ => Stage::Running,
    }
}

fn cause_at(n: u32, word: u32) -> Cause
    ensures { result ≡ cause_at n word }
{
    match n {
        1 => Cause::WrongTick(word),
        2 => Cause::TickInSwitch(word),
        _ => Cause::BadStatus(word),
    }
}

#[tactic(auto, using(refusal::proofs::Tests::chosen, refusal::proofs::Tests::passed))]
fn phase_at(w: PhaseWords) -> Phase
    ensures { result ≡ phase_at w }
{
    let stage = stage_at(w.stage);
    if w.phase == 4 {
        let cause = cause_at(w.cause, w.word);
        Phase::Stopped(stage, cause)
    } else {
        Phase::At(stage)
    }
}

// A state, if the words are what it would go out as.
#[tactic(auto, using(refusal::proofs::Tests::chosen, refusal::proofs::Tests::passed), unfolding(crate::specs::States::is_state))]
pub fn read_state(words: [u32; 8]) -> Option<State>
    ensures { result ≡ read_state words }
{
    let four = PhaseWords {
        phase: words[4],
        stage: words[5],
        cause: words[6],
        word: words[7],
    };
    let phase = phase_at(four);
    let marked = words[3] < 2;
    let phased = four == phase.words();
    if marked & phased {
        Some(State {
            current: WindowNo(words[0]),
            target: WindowNo(words[1]),
            due: words[2],
            swapped: words[3] == 1,
            phase,
        })
    } else {
        None
    }
}
