// What the machine and its host say to each other (document 01, "The machine"): where the machine is, why it stopped, and which call it
// asks for. `words` has calls and phases in numbers.
#![tactic(auto)]

ghost use Rattle.std.specs.Prelude.{◌≡◌, ◌^◌, ◌<◌};
ghost use Rattle.protocol.specs.Phase.{call_open, stage_of, can_stop, can_be, kept_word};

use records::PartitionNo;
pub use words::call_words;

mod words;

// A partition runs, or one of the three calls is open.
#[derive(Clone, Copy, PartialEq, Eq)]
pub enum Stage {
    Running,
    SaveCtx,
    ProgramRegions,
    Resume,
}

// Why it stopped, with the tick or the status word that did it.
#[derive(Clone, Copy)]
pub enum Cause {
    WrongTick(u32),
    TickInSwitch(u32),
    BadStatus(u32),
}

#[derive(Clone, Copy)]
pub enum Phase {
    At(Stage),
    // where it was, and why
    Stopped(Stage, Cause),
}

// What the host is asked to do, with the partition that it is for; an answer has at most one.
#[derive(Clone, Copy)]
pub enum Call {
    SaveFor(PartitionNo),
    SwapFor(PartitionNo),
    ResumeFor(PartitionNo),
}

// A call as a log and C have it: 1 save, 2 swap, 3 resume, then the partition; two zeros for no call.
#[derive(Clone, Copy)]
pub struct CallWords {
    pub number: u32,
    pub partition: u32,
}

// A phase as C has it: `phase` is 0 to 3, or 4 stopped; `stage` the phase it is in or was stopped in, 0 to 3; `cause` 1 wrong tick, 2 tick in a switch, 3 bad
// status, and `word` its tick or status word, two zeros where it is not stopped.
#[derive(Clone, Copy, PartialEq, Eq)]
pub struct PhaseWords {
    pub phase: u32,
    pub stage: u32,
    pub cause: u32,
    pub word: u32,
}

impl Stage {
    // Whether a call waits for its status.
    pub fn call_open(self) -> bool
        ensures { result ≡ call_open self }
    {
        match self {
            Stage::Running => false,
            Stage::SaveCtx | Stage::ProgramRegions | Stage::Resume => true,
        }
    }
}

impl Cause {
    // Whether it can stop a machine at this stage, with this tick due.
    fn can_stop(self, stage: Stage, due: u32) -> bool
        ensures { result ≡ can_stop stage due self }
    {
        let waits = stage.call_open();
        match self {
            Cause::WrongTick(t) => !waits & (t != due),
            Cause::TickInSwitch(_) => waits,
            Cause::BadStatus(word) => waits & (word != 0),
        }
    }
}

impl Phase {
    // Where it is, or was when it stopped.
    pub fn stage(self) -> Stage
        ensures { result ≡ stage_of self }
    {
        match self {
            Phase::At(stage) | Phase::Stopped(stage, _) => stage,
        }
    }

    // Whether a machine with this tick due can be in this phase: if it stopped, then for something that stops it.
    pub fn can_be(self, due: u32) -> bool
        ensures { result ≡ can_be due self }
    {
        match self {
            Phase::At(_) => true,
            Phase::Stopped(stage, cause) => cause.can_stop(stage, due),
        }
    }

    // The tick or the status word that a stop keeps, 0 where there is none. It came as a u32, so it is one.
    pub fn kept_word(self) -> u32
        ensures word { result ≡ kept_word self }
        ensures small { kept_word self < 2 ^ 32 }
    {
        match self {
            Phase::At(_) => 0,
            Phase::Stopped(_, Cause::WrongTick(t) | Cause::TickInSwitch(t)) => t,
            Phase::Stopped(_, Cause::BadStatus(word)) => word,
        }
    }
}
