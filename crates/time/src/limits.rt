// Limits by id (01, One tick, 4).
ghost use Rattle.std.specs.Prelude.{◌≡◌, map};
ghost use Rattle.sequences.specs.Lists.{nearest, nearer};
ghost use Rattle.sequences.specs.Steps.{in_order};
ghost use Rattle.model.specs.declared.tables.Thread.{Thread};
ghost use Rattle.table.specs.Orderly.{Whole, Given, Does};
ghost use Rattle.theorems.specs.Leap.{run_out, limit_leap};

use model::lists::SLEEP_LIST;
use model::tables::Table;
use rules::counting;
use table::{lists, waking};

// A wait that its limit ends has result 2, a sleep 1.
fn run_out(t: Table, rows: &mut [[u8; 16]; 8], i: u8) -> Table
    requires { Given t rows.old i }
    ensures { Does t rows.old (run_out i) result rows.new }
{
    let sleepers = t.waits[SLEEP_LIST];
    if lists::holds_id(sleepers, i) {
        waking::wake(t, rows, i, 1)
    } else {
        waking::wake(t, rows, i, 2)
    }
}

// All of them, gap ticks on; whose limit runs out there becomes ready. Beside it the least of what was handed in and of what any limit has
// left then.
pub fn leap_limits(t: Table, rows: &mut [[u8; 16]; 8], gap: u32, soonest: &mut u32) -> Table
    requires { Whole t rows.old }
    ensures does { Does t rows.old (in_order 16 (limit_leap gap)) result rows.new }
    ensures soonest_after { soonest.new ≡ nearer soonest.old (nearest (map (λ (x : Thread). x.limit) result.threads)) }
{
    let mut u = t;
    for i in 0..16 {
        let k = i as usize;
        let mut x = u.threads[k];
        if x.limit == gap {
            u = run_out(u, rows, i);
            x = u.threads[k];
        } else {
            x.limit = x.limit.saturating_sub(gap);
            u.threads[k] = x;
        }
        *soonest = counting::nearer(*soonest, x.limit);
    }
    u
}
