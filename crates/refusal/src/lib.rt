// Why an input was refused: the host's error codes, and one enum of refusals with its number, its place and its host
// code (document 01, "Refusal numbers and their place").
#![tactic(auto)]

ghost use Rattle.std.specs.Prelude.{not, ◌≡◌};
ghost use Rattle.refusal.specs.First.{refuse_if, or_else};
ghost use Rattle.refusal.specs.Table.{number_of, place_of, host_code_of};

pub mod code;

// Document 01's refusals in the order of their numbers, 1 to 17, named for what is wrong. A case that concerns one window or
// one row holds its number; every other place is 0.
#[derive(Clone, Copy)]
pub enum Refusal {
    // of a plan
    Counts,
    ZeroBudget(u32),
    WrongStart(u32),
    UnknownOwner(u32),
    WrongLength(u32),
    UnknownPartition(u32),
    BadSize(u32),
    BadBase(u32),
    BadAccess(u32),
    NinthRow(u32),
    Clash(u32),
    // of what is asked of an accepted plan
    TickPastFrame,
    NoCallOpen,
    MachineStopped,
    NoWordsFor,
    LogTooShort,
    StrangeState,
}

// What a check answers: nothing where it accepts.
pub type Verdict = Result<(), Refusal>;

impl Refusal {
    // Document 01's number.
    pub fn number(self) -> u32
        ensures { result ≡ number_of self }
    {
        match self {
            Refusal::Counts => 1,
            Refusal::ZeroBudget(_) => 2,
            Refusal::WrongStart(_) => 3,
            Refusal::UnknownOwner(_) => 4,
            Refusal::WrongLength(_) => 5,
            Refusal::UnknownPartition(_) => 6,
            Refusal::BadSize(_) => 7,
            Refusal::BadBase(_) => 8,
            Refusal::BadAccess(_) => 9,
            Refusal::NinthRow(_) => 10,
            Refusal::Clash(_) => 11,
            Refusal::TickPastFrame => 12,
            Refusal::NoCallOpen => 13,
            Refusal::MachineStopped => 14,
            Refusal::NoWordsFor => 15,
            Refusal::LogTooShort => 16,
            Refusal::StrangeState => 17,
        }
    }

    // Where it is: a window, a row, or 0.
    pub fn place(self) -> u32
        ensures { result ≡ place_of self }
    {
        match self {
            Refusal::ZeroBudget(window)
            | Refusal::WrongStart(window)
            | Refusal::UnknownOwner(window)
            | Refusal::WrongLength(window) => window,
            Refusal::UnknownPartition(row)
            | Refusal::BadSize(row)
            | Refusal::BadBase(row)
            | Refusal::BadAccess(row)
            | Refusal::NinthRow(row)
            | Refusal::Clash(row) => row,
            Refusal::Counts | Refusal::TickPastFrame => 0,
            Refusal::NoCallOpen
            | Refusal::MachineStopped
            | Refusal::NoWordsFor
            | Refusal::LogTooShort
            | Refusal::StrangeState => 0,
        }
    }

    // The code that the host's error interface knows it by, as document 01's table gives it for each number.
    #[tactic(auto, unfolding(crate::specs::Table::code_of))]
    pub fn host_code(self) -> i32
        ensures { result ≡ host_code_of self }
    {
        match self.number() {
            4 | 6 | 15 => code::ENOENT,
            10 | 16 => code::ENOSPC,
            11 => code::EADDRINUSE,
            13 => code::EAGAIN,
            14 => code::ECANCELED,
            17 => code::EBADF,
            _ => code::EINVAL,
        }
    }
}

// An earlier refusal stands; else a test that fails is refused with `r`.
#[tactic(auto, unfolding(crate::specs::First::or_else, crate::specs::First::refuse_if))]
pub fn or_refuse(verdict: Verdict, passes: bool, r: Refusal) -> Verdict
    ensures { result ≡ or_else verdict (refuse_if (not passes) r) }
{
    verdict?;
    if passes { Ok(()) } else { Err(r) }
}
