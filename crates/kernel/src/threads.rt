// The effects of calls 1 to 8.
ghost use Rattle.std.specs.Prelude.{◌≡◌, ◌<◌, ◌≤◌};
ghost use Rattle.model.specs.Calls.{create_thread, start, stop, exit, yield, sleep, set_priority, set_quantum};
ghost use Rattle.model.specs.Effects.{new_current, create_thread_effect, start_effect, stop_effect, exit_effect, yield_effect, sleep_effect, set_priority_effect, set_quantum_effect};
ghost use Rattle.model.specs.Before.{Rows, view};
ghost use Rattle.table.specs.Orderly.{Meets, Does};
ghost use Rattle.kernel.specs.Allowed.{Allowed};

use model::lists::STOPPED_LIST;
use model::requests::Request;
use model::tables::Table;
use table::{entering, leaving, owners, priorities, threads, waking};

// Call 1: last among the stopped.
pub fn create_thread(t: Table, q: Request) -> Table
    requires { (rows : Rows) × Allowed create_thread q t rows }
    ensures { Meets t (create_thread_effect q) result }
{
    let i = q.id as u8;
    let x = rules::threads::new_thread(q.a as u8, q.b as u16);
    let u = threads::with_thread(t, i, x);
    entering::enter_tail(u, STOPPED_LIST, i)
}

// Call 2: from the stopped list to its ready tail.
pub fn start(t: Table, rows: &mut [[u8; 16]; 8], q: Request) -> Table
    requires { Allowed start q t rows.old }
    ensures { Does t rows.old (start_effect q) result rows.new }
{
    let i = q.id as u8;
    waking::become_ready(t, rows, i)
}

// Call 3: from its ready list to the stopped tail.
pub fn stop(t: Table, rows: &mut [[u8; 16]; 8], q: Request) -> Table
    requires { Allowed stop q t rows.old }
    ensures { Does t rows.old (stop_effect q) result rows.new }
{
    let i = q.id as u8;
    let u = leaving::leave(t, rows, i);
    entering::enter_tail(u, STOPPED_LIST, i)
}

// Call 4: nothing is left of the running thread.
pub fn exit(t: Table, rows: &mut [[u8; 16]; 8], q: Request) -> Table
    requires { Allowed exit q t rows.old }
    ensures { Does t rows.old (exit_effect q) result rows.new }
{
    let i = t.chosen;
    let u = leaving::leave(t, rows, i);
    let x = rules::threads::absent_thread();
    threads::with_thread(u, i, x)
}

// Call 5: the running thread behind all others of its priority.
pub fn yields(t: Table, rows: &mut [[u8; 16]; 8], q: Request) -> Table
    requires { Allowed yield q t rows.old }
    ensures { Does t rows.old (yield_effect q) result rows.new }
{
    waking::become_ready(t, rows, t.chosen)
}

// Call 6.
pub fn sleep(t: Table, rows: &mut [[u8; 16]; 8], q: Request) -> Table
    requires { Allowed sleep q t rows.old }
    ensures { Does t rows.old (sleep_effect q) result rows.new }
{
    waking::start_to_sleep(t, rows, t.chosen, q.a)
}

// Who owns a mutex doesn't fall by a new base.
fn new_current(t: Table, i: u8, base: u8) -> u8
    requires { i < 16 }
    ensures { (rows : Rows) → result ≡ new_current i base (view t rows) }
{
    let mutexes = t.mutexes;
    let x = threads::thread(t, i);
    if owners::owns_one_of(mutexes, i) & (base < x.current) {
        x.current
    } else {
        base
    }
}

// Call 7: a new base, and the current priority that follows from it.
pub fn set_priority(t: Table, rows: &mut [[u8; 16]; 8], q: Request) -> Table
    requires { Allowed set_priority q t rows.old }
    ensures { Does t rows.old (set_priority_effect q) result rows.new }
{
    let i = q.id as u8;
    let base = q.a as u8;
    let p = new_current(t, i, base);
    let u = threads::with_base(t, i, base);
    priorities::take_priority(u, rows, i, p)
}

// Call 8.
pub fn set_quantum(t: Table, q: Request) -> Table
    requires { (rows : Rows) × Allowed set_quantum q t rows }
    ensures { Meets t (set_quantum_effect q) result }
{
    threads::with_quantum(t, q.id as u8, q.a as u16)
}
