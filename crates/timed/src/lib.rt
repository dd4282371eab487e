// The passing of time (01, One tick, and call 22), in place. An advance has a turn for each wake-up among its ticks and none for the quiet ones,
// however many they are; the clock is moved once, at the end. While quanta alone run out, timers and limits are owed the ticks and aren't looked at.
#![tactic(auto)]

ghost use Rattle.std.specs.Prelude.{◌≡◌, ◌+◌, ◌-◌, ◌<◌, true, false};
ghost use Rattle.sequences.specs.Jumps.{Free};
ghost use Rattle.model.specs.Words.{choose};
ghost use Rattle.model.specs.Time.{after_ticks, wakeups_in, next};
ghost use Rattle.model.specs.Kernel.{call};
ghost use Rattle.model.specs.Layout.{view, lay, sound_image};
ghost use Rattle.theorems.specs.Leap.{spend, quantum_leap};
ghost use Rattle.words.specs.Images.{Whole, Does};
ghost use Rattle.timed.specs.Ahead.{Falls, Unchanged, fall};
ghost use Rattle.timed.specs.Counters.{running, nearest_counter, Due, Running, Foreseen};
ghost use Rattle.timed.specs.Owed.{owed};
ghost use Rattle.timed.specs.Running.{LimitsFrom};
ghost use Rattle.timed.specs.Within.{Within};

use crate::running::Reach;
use fields::head;
use fields::places::Image;
use model::answers::Report;
use model::requests::Request;
use rules::counting::NEVER;
use rules::{counting, numbers, scheduling};
use untimed::next;
use words::choosing;

mod limits;
mod quantum;
mod running;
mod settling;
mod timers;
mod walks;

// What lies ahead: the places of the nearest timer or limit and of the end of the running thread's quantum; and from which thread on there are limits.
#[derive(Clone, Copy)]
struct Ahead {
    due: u32,
    quantum: u32,
    from: usize,
}

// The wake-ups of an advance, and the next one after it.
#[derive(Clone, Copy)]
struct Passed {
    wakeups: u32,
    next: u32,
}

// Step 2, to the tick at place `until` and through it.
fn use_quantum(image: &mut Image, until: u32, quantum: u32)
    requires whole { Whole image.old }
    requires falls { Falls until quantum (view image.old) }
    ensures { Does image.old (quantum_leap (until + 1)) image.new }
{
    if quantum == until {
        quantum::turn_over(image);
    } else if quantum != NEVER {
        quantum::spend(image, until + 1);
    }
}

// Step 5, which there is no need for where nobody has moved. Hands back the place of the end of the running thread's quantum.
fn choose_anew(image: &mut Image, moved: bool, until: u32, quantum: u32) -> u32
    requires whole { Whole image.old }
    requires unchanged { moved ≡ false → Unchanged until quantum (view image.old) }
    ensures image { Does image.old choose image.new }
    ensures quantum { Running (view image.new) result }
{
    if moved {
        choosing::choose(image);
        return counting::place(next::quantum_left(image) as u32);
    }
    if quantum == NEVER {
        return NEVER;
    }
    quantum - until - 1
}

// To the tick at place `until` and through it, in which a timer or a limit falls due; `ticks` are those that timers and limits are told of then.
fn fall(image: &mut Image, until: u32, ticks: u32, quantum: u32, reach: Reach) -> Ahead
    requires whole { Whole image.old }
    requires falls { Falls until quantum (view image.old) × (0 < ticks) }
    requires within { Within reach (view image.old) }
    ensures image { Does image.old (fall (until + 1) ticks) image.new }
    ensures ahead { Foreseen (view image.new) result.due result.quantum }
    ensures from { LimitsFrom result.from reach.end (view image.new) }
{
    use_quantum(image, until, quantum);
    let timed = timers::leap_timers(image, ticks, reach.stop);
    let limited = limits::fall_limits(image, ticks, reach.from, reach.end);
    let due = timed.nearest.min(limited.walk.nearest);
    let moved = (quantum == until) | timed.moved | limited.walk.moved;
    let later = choose_anew(image, moved, until, quantum);
    Ahead {
        due,
        quantum: later,
        from: limited.from,
    }
}

// Ticks before the quantum's end: it is less by as many. Hands back what is left of it, where it counts.
fn rest_quantum(image: &mut Image, left: u32, quantum: u32) -> u32
    requires whole { Whole image.old }
    requires running { Running (view image.old) quantum × Free left (running (view image.old)) }
    ensures image { Does image.old (spend left) image.new }
    ensures left { result ≡ running (view image.old) - left }
{
    if quantum == NEVER {
        return 0;
    }
    quantum::spend(image, left);
    quantum + 1 - left
}

// Ticks before any timer or limit falls due. Hands back what the nearest has left, or 0.
fn rest_counters(image: &mut Image, ticks: u32, due: u32, reach: Reach) -> u32
    requires whole { Whole image.old }
    requires due { Due (view image.old) due × Free ticks (nearest_counter (view image.old)) }
    requires within { Within reach (view image.old) }
    ensures image { Does image.old (owed ticks) image.new }
    ensures left { result ≡ nearest_counter (view image.old) - ticks }
{
    if due == NEVER {
        return 0;
    }
    settling::settle(image, ticks, reach);
    due + 1 - ticks
}

// n ticks at once. `debt` is how many of them timers and limits are owed, and `due` the place of the nearest as it stands in the image.
fn pass(image: &mut Image, n: u32) -> Passed
    requires { sound_image image.old ≡ true }
    ensures image { Does image.old (after_ticks n) image.new }
    ensures wakeups { result.wakeups ≡ wakeups_in n (view image.old) }
    ensures next { result.next ≡ next (view image.new) }
{
    let clock = head::clock(image).wrapping_add(n);
    let timer = next::nearest_timer(image);
    let limit = next::nearest_limit(image);
    let mut due = timer.min(limit);
    let mut quantum = counting::place(next::quantum_left(image) as u32);
    let mut reach = Reach::of(image, quantum.min(due) < n);
    let mut debt: u32 = 0;
    let mut left = n;
    let mut woken: u32 = 0;
    while quantum.min(due - debt) < left {
        let until = due - debt;
        woken = woken + 1;
        if until <= quantum {
            left = left - until - 1;
            let ahead = fall(image, until, due + 1, quantum, reach);
            due = ahead.due;
            quantum = ahead.quantum;
            reach.from = ahead.from;
            debt = 0;
        } else {
            left = left - quantum - 1;
            debt = debt + quantum + 1;
            quantum = quantum::take_turns(image);
        }
    }
    let own = rest_quantum(image, left, quantum);
    let others = rest_counters(image, debt + left, due, reach);
    head::set_clock(image, clock);
    Passed {
        wakeups: woken,
        next: counting::nearer(own, others),
    }
}

// Call 22 on a sound image: its answer, what is reported beside it, and the image after it. A refusal writes nothing.
pub fn timed(image: &mut Image, q: Request) -> Report
    requires image_value { sound_image image.old ≡ true }
    requires call_value { q.call ≡ 22 }
    ensures report { result ≡ (call (view image.old) q).report }
    ensures image { image.new ≡ lay (call (view image.old) q).after }
{
    let answer = scheduling::answer(q);
    if !numbers::is_accepted(answer) {
        let next = next::next_wake_up(image);
        return untimed::told(image, answer, 0, next);
    }
    let passed = pass(image, q.a);
    untimed::told(image, answer, passed.wakeups, passed.next)
}
