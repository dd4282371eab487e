// Timers by id (01, One tick, 3): each is counted down, and one that runs out acts before the next has its turn.
ghost use Rattle.std.specs.Prelude.{◌≡◌, ◌<◌, false};
ghost use Rattle.sequences.specs.Steps.{in_order};
ghost use Rattle.model.specs.State.{timer_count};
ghost use Rattle.model.specs.Parts.{timer, alter_timer};
ghost use Rattle.model.specs.Tick.{expired};
ghost use Rattle.model.specs.Layout.{view};
ghost use Rattle.fields.specs.Fields.{Alters};
ghost use Rattle.theorems.specs.Leap.{timer_leap};
ghost use Rattle.words.specs.Images.{Whole, Does};
ghost use Rattle.untimed.specs.Counters.{Nearest};
ghost use Rattle.timed.specs.Armed.{act_of, Aimed, Armed};
ghost use Rattle.timed.specs.Counters.{times};
ghost use Rattle.timed.specs.Running.{TimersTo};
ghost use Rattle.timed.specs.Unmoved.{Unmoved};

use crate::walks::Walk;
use fields::places::Image;
use fields::timers;
use model::actions::Action;
use model::tables::Timer;
use rules::counting;
use rules::counting::NEVER;
use serving::{flags, semaphores};

// One expiry more of timer o, which is t; a repeating timer starts anew. Hands back what it has left then.
fn expire(image: &mut Image, o: usize, t: Timer) -> u32
    requires o_bound { o < 8 }
    requires t_value { t ≡ timer o (view image.old) }
    ensures image { Alters image.old (alter_timer o expired) image.new }
    ensures left { result ≡ (expired t).left }
{
    let again = if t.repeat == 1 { t.period } else { 0 };
    timers::set_time(image, o, again, t.count.wrapping_add(1));
    again
}

// What timer o does when it runs out, which has an action: calls 11 and 17 go by the same words. Every number from 2 on sets flags, as the definition
// has it.
fn act(image: &mut Image, o: usize)
    requires whole { Whole image.old }
    requires o_bound { (o < 8) × Aimed (timer o (view image.old)) × (0 < (timer o (view image.old)).kind) }
    ensures { Does image.old (act_of o) image.new }
{
    let t = timers::timer(image, o);
    let object = t.object as usize;
    match Action::try_from(t.kind) {
        Ok(Action::Nothing) => {}
        Ok(Action::Post) => semaphores::post_semaphore(image, object),
        Ok(Action::SetFlags) | Err(_) => flags::set_flags(image, object, t.mask),
    }
}

// All of them, so many ticks on; what runs out there acts. Those from `end` on don't run.
pub fn leap_timers(image: &mut Image, ticks: u32, end: usize) -> Walk
    requires whole { Whole image.old }
    requires ticks_nonzero { (0 < ticks) × Armed (view image.old) × TimersTo end (view image.old) }
    ensures image { Does image.old (in_order timer_count (timer_leap ticks)) image.new }
    ensures nearest { Nearest (times (view image.new)) result.nearest }
    ensures unmoved { result.moved ≡ false → Unmoved (view image.old) (view image.new) }
{
    let mut nearest = NEVER;
    let mut moved = false;
    for o in 0..end {
        let mut x = timers::left(image, o);
        if x == ticks {
            let t = timers::timer(image, o);
            x = expire(image, o, t);
            if t.kind != Action::Nothing as u8 {
                act(image, o);
                moved = true;
            }
        } else {
            x = x.saturating_sub(ticks);
            timers::set_left(image, o, x);
        }
        nearest = counting::place(x).min(nearest);
    }
    Walk { nearest, moved }
}
