// The effects of calls 9 to 11; timers post by the same word.
ghost use Rattle.std.specs.Prelude.{◌<◌, ◌≤◌};
ghost use Rattle.model.specs.Parts.{alter_semaphore};
ghost use Rattle.model.specs.Calls.{create_semaphore, pend, post};
ghost use Rattle.model.specs.Effects.{create_semaphore_effect, pend_effect, one_more, post_semaphore, post_effect};
ghost use Rattle.model.specs.Before.{Rows};
ghost use Rattle.table.specs.Orderly.{OrderlyTable, Whole, Meets, Does};
ghost use Rattle.kernel.specs.Allowed.{Allowed};

use model::lists::SEMAPHORE_LIST;
use model::requests::Request;
use model::tables::{Semaphore, Table};
use table::{storing, threads, waking};

// Call 9.
pub(crate) fn create_semaphore(t: Table, q: Request) -> Table
    requires { (rows : Rows) × Allowed create_semaphore q t rows }
    ensures { Meets t (create_semaphore_effect q) result }
{
    let x = Semaphore {
        created: 1,
        count: q.a as u16,
        maximum: q.b as u16,
    };
    storing::with_semaphore(t, q.id as usize, x)
}

// Call 10: a count above 0 is taken, else the running thread waits.
pub(crate) fn pend(t: Table, rows: &mut [[u8; 16]; 8], q: Request) -> Table
    requires { Allowed pend q t rows.old }
    ensures { Does t rows.old (pend_effect q) result rows.new }
{
    let o = q.id as usize;
    let mut x = t.semaphores[o];
    if x.count == 0 {
        waking::start_to_wait(t, rows, SEMAPHORE_LIST + o, t.chosen, q.a, 0, 0)
    } else {
        x.count -= 1;
        let u = storing::with_semaphore(t, o, x);
        threads::with_result(u, t.chosen, 1)
    }
}

// One more, as far as the maximum.
fn count_up(t: Table, o: usize) -> Table
    requires orderly_table { OrderlyTable t }
    requires o_bound { o < 8 }
    ensures { Meets t (alter_semaphore o one_more) result }
{
    let mut x = t.semaphores[o];
    if x.count < x.maximum {
        x.count += 1;
        storing::with_semaphore(t, o, x)
    } else {
        t
    }
}

// The first waiter is woken; with none the count goes up.
pub fn post_semaphore(t: Table, rows: &mut [[u8; 16]; 8], o: usize) -> Table
    requires whole { Whole t rows.old }
    requires o_bound { o < 8 }
    ensures { Does t rows.old (post_semaphore o) result rows.new }
{
    let l = t.waits[SEMAPHORE_LIST + o];
    if l.length == 0 {
        count_up(t, o)
    } else {
        let ids = l.ids;
        waking::wake(t, rows, ids[0], 1)
    }
}

// Call 11.
pub(crate) fn post(t: Table, rows: &mut [[u8; 16]; 8], q: Request) -> Table
    requires { Allowed post q t rows.old }
    ensures { Does t rows.old (post_effect q) result rows.new }
{
    post_semaphore(t, rows, q.id as usize)
}
