// The passing of time (01, One tick, and call 22). An advance has a turn for each wake-up among its ticks and none for the quiet ones, however
// many they are; the clock is moved once, at the end.
#![tactic(auto)]

ghost use Rattle.std.specs.Prelude.{◌≡◌, ◌<◌, true};
ghost use Rattle.model.specs.Time.{after_ticks, wakeups_in, next};
ghost use Rattle.model.specs.Kernel.{span, call};
ghost use Rattle.model.specs.Before.{view, sound_table, laid};
ghost use Rattle.table.specs.Orderly.{Whole, Does};
ghost use Rattle.theorems.specs.Leap.{leap};
ghost use Rattle.time.specs.Armed.{Armed};

use kernel::next;
use model::answers::{Answer, Reply};
use model::requests::Request;
use model::tables::Table;
use rules::{counting, numbers};
use table::{choosing, storing};

mod limits;
mod quantum;
mod rounds;
mod skips;
mod timers;

// A table after some ticks, and how many of them were wake-ups.
#[derive(Clone, Copy)]
struct Passed {
    table: Table,
    wakeups: u32,
}

// To the next wake-up and through it: `gap` ticks, of which the last is one. Then `gap` is the distance to the one after it. These are steps 2
// to 5 of a tick; timers and threads are walked once.
fn leap(t: Table, rows: &mut [[u8; 16]; 8], gap: &mut u32) -> Table
    requires whole { Whole t rows.old }
    requires gap_nonzero { (0 < gap.old) × Armed t }
    ensures does { Does t rows.old (leap gap.old) result rows.new }
    ensures gap_after { gap.new ≡ next (view result rows.new) }
{
    let by = *gap;
    let second = quantum::quantum_leap(t, rows, by);
    let third = timers::leap_timers(second, rows, by, gap);
    let fourth = limits::leap_limits(third, rows, by, gap);
    let all = *rows;
    let fifth = choosing::choose(fourth, all);
    let left = next::quantum_left(fifth) as u32;
    *gap = counting::nearer(left, *gap);
    fifth
}

// n ticks at once.
fn pass(t: Table, rows: &mut [[u8; 16]; 8], n: u32) -> Passed
    requires { sound_table t rows.old ≡ true }
    ensures does { Does t rows.old (after_ticks n) result.table rows.new }
    ensures wakeups_value { result.wakeups ≡ wakeups_in n (view t rows.old) }
{
    let mut u = t;
    let mut left = n;
    let mut woken: u32 = 0;
    let mut gap = next::next_wake_up(t);
    while 0 < gap && gap <= left {
        left -= gap;
        woken += 1;
        u = leap(u, rows, &mut gap);
    }
    let quiet = skips::skip(u, left);
    let clock = t.clock.wrapping_add(n);
    let moved = storing::with_clock(quiet, clock);
    Passed {
        table: moved,
        wakeups: woken,
    }
}

// The ticks that pass in an advance: those asked for, or none where it is refused.
fn span(q: Request, a: Answer) -> u32
    requires { q.call ≡ 22 }
    ensures { result ≡ span a q }
{
    if numbers::is_accepted(a) { q.a } else { 0 }
}

// Call 22 on a sound table: its answer, what is reported beside it, and the table and rows handed back.
pub fn timed(t: Table, rows: &mut [[u8; 16]; 8], q: Request) -> Reply
    requires rows_value { sound_table t rows.old ≡ true }
    requires call_value { q.call ≡ 22 }
    ensures { record { reply = result; rows = rows.new } ≡ laid (call (view t rows.old) q) }
{
    let before = *rows;
    let answer = refusals::answer(t, before, q);
    let n = span(q, answer);
    let p = pass(t, rows, n);
    let u = p.table;
    let next = next::next_wake_up(u);
    kernel::reply(u, answer, p.wakeups, next)
}
