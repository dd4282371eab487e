// Timers by id (01, One tick, 3): each is counted down, and one that runs out acts before the next has its turn.
ghost use Rattle.std.specs.Prelude.{◌≡◌, ◌<◌, map};
ghost use Rattle.sequences.specs.Lists.{nearest};
ghost use Rattle.sequences.specs.Steps.{in_order};
ghost use Rattle.model.specs.declared.tables.Timer.{Timer};
ghost use Rattle.model.specs.Effects.{act};
ghost use Rattle.model.specs.Tick.{expired};
ghost use Rattle.table.specs.Orderly.{Whole, Does};
ghost use Rattle.theorems.specs.Leap.{timer_leap};
ghost use Rattle.time.specs.Armed.{Aimed, Armed};

use kernel::{flags, semaphores};
use model::actions::Action;
use model::tables::{Table, Timer};
use rules::counting;

// One expiry more; a repeating timer starts anew.
fn expired(x: Timer) -> Timer
    ensures { result ≡ expired x }
{
    let mut y = x;
    if x.repeat == 1 {
        y.left = x.period;
    } else {
        y.left = 0;
    }
    y.count = x.count.wrapping_add(1);
    y
}

// What a timer does when it runs out: calls 11 and 17 go by the same words. Every number from 2 on sets flags, as the definition has it.
fn act(t: Table, rows: &mut [[u8; 16]; 8], x: Timer) -> Table
    requires whole { Whole t rows.old }
    requires aimed { Aimed x }
    ensures { Does t rows.old (act x.kind x.object x.mask) result rows.new }
{
    let o = x.object as usize;
    match Action::try_from(x.kind) {
        Ok(Action::Nothing) => t,
        Ok(Action::Post) => semaphores::post_semaphore(t, rows, o),
        Ok(Action::SetFlags) | Err(_) => flags::set_flags(t, rows, o, x.mask),
    }
}

// All of them, gap ticks on; what runs out there acts. Beside it the least that any of them has left then, worked out on the way.
pub fn leap_timers(t: Table, rows: &mut [[u8; 16]; 8], gap: u32, soonest: &mut u32) -> Table
    requires whole { Whole t rows.old }
    requires armed { Armed t }
    ensures does { Does t rows.old (in_order 8 (timer_leap gap)) result rows.new }
    ensures soonest_after { soonest.new ≡ nearest (map (λ (x : Timer). x.left) result.timers) }
{
    let mut u = t;
    *soonest = 0;
    for o in 0..8 {
        let mut x = u.timers[o];
        if x.left == gap {
            let y = expired(x);
            u.timers[o] = y;
            // Without the test each timer that only counts would cost a copy of the table.
            if x.kind != Action::Nothing as u8 {
                u = act(u, rows, x);
            }
            x = y;
        } else {
            x.left = x.left.saturating_sub(gap);
            u.timers[o] = x;
        }
        *soonest = counting::nearer(*soonest, x.left);
    }
    u
}
