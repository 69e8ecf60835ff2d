// The makers of states and of answers. A state that a function answers is the one that it got or is made here.
ghost use Rattle.std.specs.Prelude.{◌≡◌};
ghost use Rattle.state.specs.State.{zeros, ticked, asked, resumed};
ghost use Rattle.state.specs.Answer.{moved, quiet, stop, refused_answer};

use crate::{Answer, State};
use protocol::{Call, Cause, Phase, Stage};
use records::WindowNo;
use refusal::Verdict;

impl State {
    // What a refusal answers where no state was given, and what a cold start begins with.
    pub fn zeros() -> State
        ensures { result ≡ zeros }
    {
        State {
            current: WindowNo(0),
            target: WindowNo(0),
            due: 0,
            swapped: false,
            phase: Phase::At(Stage::Running),
        }
    }

    // A tick was taken.
    pub fn ticked(self, due: u32) -> State
        ensures { result ≡ ticked self due }
    {
        State { due, ..self }
    }

    // The target's owner runs.
    pub fn resumed(self) -> State
        ensures { result ≡ resumed self }
    {
        State {
            current: self.target,
            phase: Phase::At(Stage::Running),
            ..self
        }
    }

    // Nothing is asked.
    pub fn quiet(self) -> Answer
        ensures { result ≡ quiet self }
    {
        Answer {
            state: self,
            call: None, // the host has nothing to do
            verdict: Ok(()), // and nothing was wrong
        }
    }

    // The call is open.
    pub fn ask(self, stage: Stage, target: WindowNo, swapped: bool, call: Option<Call>) -> Answer
        ensures { result ≡ moved (asked self stage target swapped) call }
    {
        let state = State {
            target,
            swapped,
            phase: Phase::At(stage),
            ..self // who runs stays current until the resume is answered
        };
        Answer {
            state,
            call,
            verdict: Ok(()),
        }
    }

    // A stop changes the phase only.
    pub fn stop(self, stage: Stage, cause: Cause) -> Answer
        ensures { result ≡ stop self stage cause }
    {
        let phase = Phase::Stopped(stage, cause);
        State { phase, ..self }.quiet() // its tick is not taken
    }

    // The state as it came.
    pub fn refused(self, verdict: Verdict) -> Answer
        ensures { result ≡ refused_answer self verdict }
    {
        Answer {
            state: self,
            call: None, // what was open stays open
            verdict,
        }
    }
}
