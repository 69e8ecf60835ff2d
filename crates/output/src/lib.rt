// What the programs write to standard output, and they write by nothing else: how values look there, byte by byte, and functions for a line and its parts. Each
// function answers only whether it could be written, and none can promise what is written: that is held against each program's file `stdout`.
#![tactic(auto)]

ghost use Rattle.std.specs.Prelude.{Some};
ghost use Rattle.output.specs.Looks.{verdict_numbers, phase_numbers, call_numbers, outcome_text};

use protocol::{CallWords, PhaseWords};
use refusal::Verdict;
use std::{fmt, io};

// A value that is written as numbers, with a space between each two.
#[derive(Clone, Copy)]
pub struct Numbers<T>(pub T);

// Number and place, 0 0 where accepted.
impl fmt::Display for Numbers<Verdict> {
    ghost output = { λ n. Some (verdict_numbers n.0) };

    fn fmt<W: fmt::Write>(&self, f: &mut fmt::Formatter<W>) -> fmt::Result {
        let (number, place) = match self.0 {
            Ok(()) => (0, 0),
            Err(r) => (r.number(), r.place()),
        };
        write!(f, "{number} {place}")
    }
}

impl fmt::Display for Numbers<PhaseWords> {
    ghost output = { λ n. Some (phase_numbers n.0) };

    fn fmt<W: fmt::Write>(&self, f: &mut fmt::Formatter<W>) -> fmt::Result {
        let words = self.0;
        write!(
            f,
            "{} {} {} {}",
            words.phase, words.stage, words.cause, words.word
        )
    }
}

impl fmt::Display for Numbers<CallWords> {
    ghost output = { λ n. Some (call_numbers n.0) };

    fn fmt<W: fmt::Write>(&self, f: &mut fmt::Formatter<W>) -> fmt::Result {
        write!(f, "{} {}", self.0.number, self.0.partition)
    }
}

// `accepted`, or `refused` with number and place behind tabs.
#[derive(Clone, Copy)]
pub struct Outcome(pub Verdict);

impl fmt::Display for Outcome {
    ghost output = { λ o. Some (outcome_text o.0) };

    fn fmt<W: fmt::Write>(&self, f: &mut fmt::Formatter<W>) -> fmt::Result {
        match self.0 {
            Ok(()) => f.write_str("accepted"),
            Err(r) => write!(f, "refused\t{}\t{}", r.number(), r.place()),
        }
    }
}

// What `{}` writes of a value, as of `format_args!(..)`: a part of a line.
pub fn say_part<T: fmt::Display + Drop>(rt: &impl Print, text: T) -> io::Result<()> {
    rt.print(text)
}

// The same, and the line's end.
pub fn say_line<T: fmt::Display + Drop>(rt: &impl Print, text: T) -> io::Result<()> {
    rt.println(text)
}

pub fn say(rt: &impl Print, words: &[u8]) -> io::Result<()> {
    rt.write_all(words)
}

pub fn say_number(rt: &impl Print, n: u32) -> io::Result<()> {
    rt.print(n)
}

pub fn say_with(rt: &impl Print, words: &[u8], n: u32) -> io::Result<()> {
    say(rt, words)?;
    rt.print(n)
}

// A number in a row of them, behind a space.
pub fn put(rt: &impl Print, n: u32) -> io::Result<()> {
    print!(rt; " {n}")
}

pub fn put_flag(rt: &impl Print, flag: bool) -> io::Result<()> {
    put(rt, u32::from(flag))
}

pub fn put_verdict(rt: &impl Print, verdict: Verdict) -> io::Result<()> {
    print!(rt; " {}", Numbers(verdict))
}

pub fn end(rt: &impl Print) -> io::Result<()> {
    println!(rt; "")
}
