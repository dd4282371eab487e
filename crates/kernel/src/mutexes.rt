// The effects of calls 12 to 14.
ghost use Rattle.std.specs.Prelude.{◌<◌, ◌≤◌};
ghost use Rattle.model.specs.State.{mutex_list};
ghost use Rattle.model.specs.Parts.{list};
ghost use Rattle.model.specs.Calls.{create_mutex, claim, release};
ghost use Rattle.model.specs.Effects.{create_mutex_effect, raise, claim_effect, fall, hand_over, release_effect};
ghost use Rattle.model.specs.Before.{Rows, thread_at};
ghost use Rattle.table.specs.Orderly.{Whole, Given, Meets, Does};
ghost use Rattle.kernel.specs.Allowed.{Allowed};

use model::lists::MUTEX_LIST;
use model::requests::Request;
use model::tables::{Mutex, Table};
use rules::owners;
use table::{priorities, storing, threads, waking};

// Call 12.
pub fn create_mutex(t: Table, q: Request) -> Table
    requires { (rows : Rows) × Allowed create_mutex q t rows }
    ensures { Meets t (create_mutex_effect q) result }
{
    let x = Mutex {
        created: 1,
        owner: 0,
        depth: 0,
    };
    storing::with_mutex(t, q.id as usize, x)
}

// The current priority of `from`, where it exceeds that of thread i, becomes that of thread i.
fn raise(t: Table, rows: &mut [[u8; 16]; 8], i: u8, from: u8) -> Table
    requires given { Given t rows.old i }
    requires from_bound { from < 16 }
    ensures { Does t rows.old (raise i from) result rows.new }
{
    let x = threads::thread(t, i);
    let y = threads::thread(t, from);
    if x.current < y.current {
        priorities::take_priority(t, rows, i, y.current)
    } else {
        t
    }
}

// Call 13: another's mutex is waited for, and its owner raised; else it is the running thread's, once more if it was already.
pub fn claim(t: Table, rows: &mut [[u8; 16]; 8], q: Request) -> Table
    requires { Allowed claim q t rows.old }
    ensures { Does t rows.old (claim_effect q) result rows.new }
{
    let o = q.id as usize;
    let c = t.chosen;
    let mut x = t.mutexes[o];
    if owners::is_others(x, c) {
        let u = waking::start_to_wait(t, rows, MUTEX_LIST + o, c, q.a, 0, 0);
        raise(u, rows, x.owner, c)
    } else {
        x.owner = c;
        x.depth += 1;
        let u = storing::with_mutex(t, o, x);
        threads::with_result(u, c, 1)
    }
}

// To its base priority.
fn fall(t: Table, rows: &mut [[u8; 16]; 8], i: u8) -> Table
    requires given { Given t rows.old i }
    requires i_bound { (thread_at t.threads i).base < 8 }
    ensures { Does t rows.old (fall i) result rows.new }
{
    let x = threads::thread(t, i);
    priorities::take_priority(t, rows, i, x.base)
}

// The first waiter owns it and is woken; with none it is unowned.
fn hand_over(t: Table, rows: &mut [[u8; 16]; 8], o: usize) -> Table
    requires whole { Whole t rows.old }
    requires o_bound { o < 4 }
    ensures { Does t rows.old (λ s. hand_over o (list (mutex_list o) s) s) result rows.new }
{
    let l = t.waits[MUTEX_LIST + o];
    let mut x = t.mutexes[o];
    if l.length == 0 {
        x.owner = 0;
        x.depth = 0;
        storing::with_mutex(t, o, x)
    } else {
        let ids = l.ids;
        x.owner = ids[0];
        x.depth = 1;
        let u = storing::with_mutex(t, o, x);
        waking::wake(u, rows, x.owner, 1)
    }
}

// Call 14: with the last level first the fall, then the new owner.
pub fn release(t: Table, rows: &mut [[u8; 16]; 8], q: Request) -> Table
    requires { Allowed release q t rows.old }
    ensures { Does t rows.old (release_effect q) result rows.new }
{
    let o = q.id as usize;
    let mut x = t.mutexes[o];
    if x.depth == 1 {
        let u = fall(t, rows, t.chosen);
        hand_over(u, rows, o)
    } else {
        x.depth -= 1;
        storing::with_mutex(t, o, x)
    }
}
