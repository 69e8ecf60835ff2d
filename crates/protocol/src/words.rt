// Calls and phases in document 01's numbers and words, for logs and for hosts that know no enums.
ghost use Rattle.std.specs.Prelude.{◌≡◌};
ghost use Rattle.protocol.specs.Numbers.{call_words, stage_number, phase_words};

use crate::{Call, CallWords, Cause, Phase, PhaseWords, Stage};
use records::PartitionNo;

impl Stage {
    // Its place among the four.
    pub fn number(self) -> u32
        ensures { result ≡ stage_number self }
    {
        match self {
            Stage::Running => 0,
            Stage::SaveCtx => 1,
            Stage::ProgramRegions => 2,
            Stage::Resume => 3,
        }
    }
}

// The call that is asked for, if one is.
pub fn call_words(call: Option<Call>) -> CallWords
    ensures { result ≡ call_words call }
{
    let (number, partition) = match call {
        None => (0, PartitionNo(0)),
        Some(Call::SaveFor(q)) => (1, q),
        Some(Call::SwapFor(q)) => (2, q),
        Some(Call::ResumeFor(q)) => (3, q),
    };
    CallWords {
        number,
        partition: partition.0,
    }
}

impl Phase {
    pub fn words(self) -> PhaseWords
        ensures { result ≡ phase_words self }
    {
        let stage = self.stage().number();
        let (phase, cause, word) = match self {
            Phase::At(_) => (stage, 0, 0),
            Phase::Stopped(_, Cause::WrongTick(t)) => (4, 1, t),
            Phase::Stopped(_, Cause::TickInSwitch(t)) => (4, 2, t),
            Phase::Stopped(_, Cause::BadStatus(word)) => (4, 3, word),
        };
        PhaseWords {
            phase,
            stage,
            cause,
            word,
        }
    }
}
