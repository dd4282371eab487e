// How far timers and limits have to be looked at while an advance lasts.
ghost use Rattle.std.specs.Prelude.{ℕ, ◌<◌, ◌≤◌};
ghost use Rattle.model.specs.Layout.{view};
ghost use Rattle.timed.specs.Running.{TimersTo, LimitsFrom};
ghost use Rattle.timed.specs.Within.{Within};

use fields::places::{Image, THREAD_COUNT, TIMER_COUNT};
use fields::{threads, timers};

// Timers below `stop` may run, and threads from `from` on and below `end` have limits.
#[derive(Clone, Copy)]
pub struct Reach {
    pub stop: usize,
    pub from: usize,
    pub end: usize,
}

impl Reach {
    // Where there is no wake-up to come it isn't worth finding out.
    pub fn of(image: &Image, wakes: bool) -> Reach
        ensures { Within result (view image.now) }
    {
        if wakes {
            return Reach {
                stop: timers_end(image),
                from: 0,
                end: limits_end(image),
            };
        }
        Reach {
            stop: TIMER_COUNT,
            from: 0,
            end: THREAD_COUNT,
        }
    }
}

// Behind the last of so many counters that isn't 0.
fn behind_last<F: Fn(usize) -> u32>(count: usize, counter: F) -> usize
    requires { (o : ℕ) → o < count → F.pre counter o }
    ensures most { result ≤ count }
    ensures behind { (o : ℕ) → result ≤ o → o < count → F.post counter o 0 }
{
    for o in (0..count).rev() {
        if counter(o) != 0 {
            return o + 1;
        }
    }
    0
}

// Behind the last timer that runs.
fn timers_end(image: &Image) -> usize
    ensures { TimersTo result (view image.now) }
{
    behind_last(TIMER_COUNT, |o| timers::left(image, o))
}

// Behind the last thread that has a limit.
fn limits_end(image: &Image) -> usize
    ensures { LimitsFrom 0 result (view image.now) }
{
    behind_last(THREAD_COUNT, |i| threads::limit(image, i))
}

// The first thread that still has a limit, or the end.
pub fn limits_begin(image: &Image, from: usize, end: usize) -> usize
    requires { LimitsFrom from end (view image.now) }
    ensures { LimitsFrom result end (view image.now) }
{
    for i in from..end {
        if threads::limit(image, i) != 0 {
            return i;
        }
    }
    end
}
