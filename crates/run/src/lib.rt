// A run (document 01, "The machine"): the machine over lists of ticks and statuses, its calls in a log. It goes on from any answer, the cold start's or
// a later one's.
#![tactic(auto)]

ghost use Rattle.std.specs.Prelude.{◌≡◌};
ghost use Rattle.machine.specs.Run.{took, tick_turn, status_turn, turn, progress, go_on, left, ended, refused_run, run_of, log_of};

use machine::Course;
pub use machine::RunAnswer;
use plan::Plan;
use protocol::Phase;
use refusal::{Refusal, Verdict};
use run_log::{put_call, too_short};
use state::{Answer, State};
use switch::{status, tick};

// A tick or a status was taken.
fn took(answer: Answer, ticks: usize, statuses: usize) -> Course
    ensures { result ≡ took answer ticks statuses }
{
    Course {
        state: answer.state,
        call: answer.call,
        ticks,
        statuses,
    }
}

#[tactic(auto, using(machine::proofs::RunLaws::no_tick, machine::proofs::RunLaws::takes_tick))]
fn tick_turn(course: Course, plan: &Plan<'_>, ticks: &[u32]) -> Option<Course>
    ensures { result ≡ tick_turn plan.now ticks.now course }
{
    let &t = ticks.get(course.ticks)?;
    let answer = tick(course.state, plan, t);
    Some(took(answer, course.ticks + 1, course.statuses))
}

#[tactic(auto, using(machine::proofs::RunLaws::no_status, machine::proofs::RunLaws::takes_status))]
fn status_turn(course: Course, plan: &Plan<'_>, statuses: &[u32]) -> Option<Course>
    ensures { result ≡ status_turn plan.now statuses.now course }
{
    let &word = statuses.get(course.statuses)?;
    let answer = status(course.state, plan, word);
    Some(took(answer, course.ticks, course.statuses + 1))
}

// The next status if the last answer left a call open, else the next tick; nothing once it is stopped.
#[tactic(auto, using(run_log::proofs::LogLaws::asked, machine::proofs::RunLaws::turn_stopped, machine::proofs::RunLaws::turn_open, machine::proofs::RunLaws::turn_quiet))]
fn turn(course: Course, plan: &Plan<'_>, ticks: &[u32], statuses: &[u32]) -> Option<Course>
    ensures { result ≡ turn plan.now ticks.now statuses.now course }
{
    if let Phase::Stopped(_, _) = course.state.phase {
        return None;
    }
    if let Some(_) = course.call {
        return status_turn(course, plan, statuses);
    }
    tick_turn(course, plan, ticks)
}

// From a course on: each call is logged before the next turn.
#[tactic(auto, using(machine::proofs::RunLaws::one_turn_fewer, machine::proofs::RunLaws::all_done))]
fn go_on(
    course: Course,
    plan: &Plan<'_>,
    ticks: &[u32],
    statuses: &[u32],
    log: &mut [u32],
) -> RunAnswer
    ensures { let end = go_on plan.now ticks.now statuses.now (left ticks.now statuses.now course) (progress course 0 log.old) in
        (result ≡ ended end) × (log.new ≡ end.log) }
{
    let mut now = course;
    let mut calls = 0;
    loop {
        calls = put_call(log, calls, now.call);
        let Some(next) = turn(now, plan, ticks, statuses) else {
            return RunAnswer {
                state: now.state,
                ticks: now.ticks,
                statuses: now.statuses,
                calls,
                verdict: Ok(()),
            };
        };
        now = next;
    }
}

fn refused_run(verdict: Verdict) -> RunAnswer
    ensures { result ≡ refused_run verdict }
{
    RunAnswer {
        state: State::zeros(),
        ticks: 0,
        statuses: 0,
        calls: 0,
        verdict,
    }
}

// From a cold start to the end of what is given; refused, the log stays as it was.
pub fn run(plan: &Plan<'_>, ticks: &[u32], statuses: &[u32], log: &mut [u32]) -> RunAnswer
    ensures { (result ≡ run_of plan.now ticks.now statuses.now log.old) × (log.new ≡ log_of plan.now ticks.now statuses.now log.old) }
{
    let start = State::cold_start(plan);
    let Ok(()) = start.verdict else {
        return refused_run(start.verdict);
    };
    if too_short(log.len(), ticks.len()) {
        return refused_run(Err(Refusal::LogTooShort));
    }
    go_on(took(start, 0, 0), plan, ticks, statuses, log)
}
