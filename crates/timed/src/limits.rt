// Limits by id (01, One tick, 4). The two ends of a walk are two numbers: std's range can't be copied, and a `for` over one that is handed in
// loses the index in the proof.
ghost use Rattle.std.specs.Prelude.{◌≡◌, ◌<◌, false};
ghost use Rattle.sequences.specs.Lists.{count_all};
ghost use Rattle.sequences.specs.Steps.{in_order};
ghost use Rattle.model.specs.State.{thread_count};
ghost use Rattle.model.specs.Layout.{view};
ghost use Rattle.theorems.specs.Leap.{run_out, limit_leap};
ghost use Rattle.words.specs.Images.{Whole, Given, Does};
ghost use Rattle.untimed.specs.Counters.{Nearest};
ghost use Rattle.timed.specs.Counters.{limits};
ghost use Rattle.timed.specs.Limited.{Limited};
ghost use Rattle.timed.specs.Running.{LimitsFrom};
ghost use Rattle.timed.specs.Unmoved.{Unmoved};

use crate::running;
use crate::walks::{LimitWalk, Walk};
use fields::places::{Image, PRIORITY_COUNT};
use fields::threads;
use model::lists::SLEEP_LIST;
use rules::counting;
use rules::counting::NEVER;
use words::{standing, waking};

// A wait that its limit ends has result 2, a sleep 1. Who has slept longest of all mostly heads its list, and then no list is searched for.
fn run_out(image: &mut Image, i: usize)
    requires given { Given image.old i }
    requires waits_nonzero { 0 < count_all i (view image.old).waits }
    ensures { Does image.old (run_out i) image.new }
{
    if standing::first_of(image, SLEEP_LIST) == ((i + 1) as u8) {
        waking::wake(image, PRIORITY_COUNT + SLEEP_LIST, i, 1);
        return;
    }
    let l = words::list_of(image, i);
    if l == PRIORITY_COUNT + SLEEP_LIST {
        waking::wake(image, l, i, 1);
    } else {
        waking::wake(image, l, i, 2);
    }
}

// All of them, so many ticks on; whose limit runs out there becomes ready. Threads before `from` and from `end` on have none.
pub fn leap_limits(image: &mut Image, ticks: u32, from: usize, end: usize) -> Walk
    requires whole { Whole image.old }
    requires ticks_nonzero { (0 < ticks) × Limited (view image.old) × LimitsFrom from end (view image.old) }
    ensures image { Does image.old (in_order thread_count (limit_leap ticks)) image.new }
    ensures nearest { Nearest (limits (view image.new)) result.nearest }
    ensures unmoved { result.moved ≡ false → Unmoved (view image.old) (view image.new) }
{
    let mut nearest = NEVER;
    let mut moved = false;
    for i in from..end {
        let mut x = threads::limit(image, i);
        if x == ticks {
            run_out(image, i);
            moved = true;
            x = 0;
        } else {
            x = x.saturating_sub(ticks);
            threads::set_limit(image, i, x);
        }
        nearest = counting::place(x).min(nearest);
    }
    Walk { nearest, moved }
}

// And from which thread on there are still limits; where there are none at all nothing is looked at.
pub fn fall_limits(image: &mut Image, ticks: u32, from: usize, end: usize) -> LimitWalk
    requires whole { Whole image.old }
    requires ticks_nonzero { (0 < ticks) × Limited (view image.old) × LimitsFrom from end (view image.old) }
    ensures image { Does image.old (in_order thread_count (limit_leap ticks)) image.new }
    ensures nearest { Nearest (limits (view image.new)) result.walk.nearest }
    ensures unmoved { result.walk.moved ≡ false → Unmoved (view image.old) (view image.new) }
    ensures from { LimitsFrom result.from end (view image.new) }
{
    if end <= from {
        return LimitWalk {
            walk: Walk {
                nearest: NEVER,
                moved: false,
            },
            from,
        };
    }
    let from = running::limits_begin(image, from, end);
    let walk = leap_limits(image, ticks, from, end);
    LimitWalk { walk, from }
}
