// What a call hands back (01, Answers). `number` of specs/Answers.antt gives each case its number, `report` what stands beside it. The
// ready rows come back beside the reply.
ghost use Rattle.std.specs.Prelude.{◌≡◌};
ghost use Rattle.model.specs.Answers.{number};

use crate::tables::Table;

#[derive(Clone, Copy, Debug, PartialEq, Eq)]
pub enum Answer {
    Done,
    Unsound,
    NoCall,
    NoObject,
    BadNumber,
    Exists,
    NobodyRuns,
    SchedulingOff,
    WrongState,
    Full,
    Waits,
}

impl From<Answer> for u32 {
    ghost from_gives = { λ a n. n ≡ number a };

    fn from(answer: Answer) -> u32 {
        answer as u32
    }
}

#[derive(Clone, Copy)]
pub struct Report {
    pub answer: Answer,
    pub chosen: u8,
    pub clock: u32,
    pub wakeups: u32,
    pub next: u32,
}

#[derive(Clone, Copy)]
pub struct Reply {
    pub report: Report,
    pub table: Table,
}
