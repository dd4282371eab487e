// What is told of an image that isn't sound, and any report as numbers, as users of C have it.
ghost use Rattle.std.specs.Prelude.{◌≡◌};
ghost use Rattle.rules.specs.Reports.{report_numbers, unsound_report};

use model::answers::{Answer, Report};
use model::tables::NOBODY;

// Answer, chosen thread, clock, wake-ups, next wake-up.
pub const REPORT_LENGTH: usize = 5;

// What is told of an image that isn't sound, as numbers; a wrong length is among the reasons.
pub const REFUSED: [u32; REPORT_LENGTH] = [1, NOBODY as u32, 0, 0, 0];

pub fn unsound() -> Report
    ensures { result ≡ unsound_report }
{
    Report {
        answer: Answer::Unsound,
        chosen: NOBODY,
        clock: 0,
        wakeups: 0,
        next: 0,
    }
}

pub fn as_numbers(told: Report) -> [u32; REPORT_LENGTH]
    ensures { result ≡ report_numbers told }
{
    [
        u32::from(told.answer),
        u32::from(told.chosen),
        told.clock,
        told.wakeups,
        told.next,
    ]
}
