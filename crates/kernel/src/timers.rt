// The effects of calls 19 and 20.
ghost use Rattle.std.specs.Prelude.{◌<◌, ◌≤◌};
ghost use Rattle.model.specs.Calls.{start_timer, stop_timer};
ghost use Rattle.model.specs.Effects.{start_timer_effect, stop_timer_effect};
ghost use Rattle.model.specs.Before.{Rows};
ghost use Rattle.table.specs.Orderly.{Meets};
ghost use Rattle.kernel.specs.Allowed.{Allowed};

use model::requests::Request;
use model::tables::Table;
use table::storing;

// Call 19: everything anew but the count.
pub fn start_timer(t: Table, q: Request) -> Table
    requires { (rows : Rows) × Allowed start_timer q t rows }
    ensures { Meets t (start_timer_effect q) result }
{
    let o = q.id as usize;
    let mut x = t.timers[o];
    x.period = q.a;
    x.left = q.a;
    x.repeat = q.b as u8;
    x.kind = (q.c % 256) as u8;
    x.object = (q.c / 256) as u8;
    x.mask = q.d as u16;
    storing::with_timer(t, o, x)
}

// Call 20.
pub fn stop_timer(t: Table, q: Request) -> Table
    requires { (rows : Rows) × Allowed stop_timer q t rows }
    ensures { Meets t (stop_timer_effect q) result }
{
    let o = q.id as usize;
    let mut x = t.timers[o];
    x.left = 0;
    storing::with_timer(t, o, x)
}
