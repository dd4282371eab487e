// Timers: what is left, what stands in one that was never started, and the rules of call 19 for its action.
ghost use Rattle.std.specs.Prelude.{◌≡◌, get_or};
ghost use Rattle.sequences.specs.Lists.{every_below};
ghost use Rattle.model.specs.State.{unused_timer};
ghost use Rattle.model.specs.Sound.{zero_timer};
ghost use Rattle.table.specs.Objects.{names_one_of};
ghost use Rattle.soundness.specs.Records.{timer_fits};

use model::tables::{Flags, Semaphore, Timer};

fn zero_timer(t: Timer) -> bool
    ensures { result ≡ zero_timer t }
{
    t == Timer::default()
}

pub fn timer_fits(t: Timer, named: bool) -> bool
    ensures { result ≡ timer_fits t named }
{
    let zero = zero_timer(t);
    let in_range = rules::actions::action_in_range(t.kind as u32, t.object as u32, t.mask as u32);
    (t.repeat <= 1) & (t.left <= t.period) & ((t.period != 0) | zero) & (named & in_range)
}

pub fn timers_fit(timers: [Timer; 8], semaphores: [Semaphore; 8], flags: [Flags; 4]) -> bool
    ensures { result ≡ every_below 8 (λ o. timer_fits (get_or timers o unused_timer) (names_one_of semaphores flags (get_or timers o unused_timer).kind (get_or timers o unused_timer).object)) }
{
    timers.iter().all(|t| {
        let named = table::objects::names_object(semaphores, flags, t.kind as u32, t.object as u32);
        timer_fits(*t, named)
    })
}
