// A thread's record read, and written with all else as it was: each change is the model's of the same name, and has a function of its own.
ghost use Rattle.std.specs.Prelude.{◌≡◌, ◌<◌};
ghost use Rattle.model.specs.Parts.{alter_thread, with_base, with_current, with_quantum, with_left, with_wait, with_result, with_delivered};
ghost use Rattle.model.specs.Before.{thread_at};
ghost use Rattle.table.specs.Orderly.{OrderlyTable, Meets};

use model::tables::{Table, Thread};

pub fn thread(t: Table, i: u8) -> Thread
    requires { i < 16 }
    ensures { result ≡ thread_at t.threads i }
{
    t.threads[i as usize]
}

pub fn with_thread(mut t: Table, i: u8, x: Thread) -> Table
    requires orderly_table { OrderlyTable t }
    requires i_bound { i < 16 }
    ensures { Meets t (alter_thread i (λ _. x)) result }
{
    t.threads[i as usize] = x;
    t
}

// What a wait, its end and a call that needn't wait write.
pub fn with_wait(t: Table, i: u8, limit: u32, res: u8, mask: u16, mode: u8) -> Table
    requires orderly_table { OrderlyTable t }
    requires i_bound { i < 16 }
    ensures { Meets t (alter_thread i (with_wait limit res mask mode)) result }
{
    let mut x = thread(t, i);
    x.limit = limit;
    x.result = res;
    x.mask = mask;
    x.mode = mode;
    with_thread(t, i, x)
}

pub fn with_current(t: Table, i: u8, p: u8) -> Table
    requires orderly_table { OrderlyTable t }
    requires i_bound { i < 16 }
    ensures { Meets t (alter_thread i (with_current p)) result }
{
    let mut x = thread(t, i);
    x.current = p;
    with_thread(t, i, x)
}

pub fn with_base(t: Table, i: u8, p: u8) -> Table
    requires orderly_table { OrderlyTable t }
    requires i_bound { i < 16 }
    ensures { Meets t (alter_thread i (with_base p)) result }
{
    let mut x = thread(t, i);
    x.base = p;
    with_thread(t, i, x)
}

// A new quantum, all of it left.
pub fn with_quantum(t: Table, i: u8, n: u16) -> Table
    requires orderly_table { OrderlyTable t }
    requires i_bound { i < 16 }
    ensures { Meets t (alter_thread i (with_quantum n n)) result }
{
    let mut x = thread(t, i);
    x.quantum = n;
    x.left = n;
    with_thread(t, i, x)
}

pub fn with_left(t: Table, i: u8, left: u16) -> Table
    requires orderly_table { OrderlyTable t }
    requires i_bound { i < 16 }
    ensures { Meets t (alter_thread i (with_left left)) result }
{
    let mut x = thread(t, i);
    x.left = left;
    with_thread(t, i, x)
}

pub fn with_result(t: Table, i: u8, res: u8) -> Table
    requires orderly_table { OrderlyTable t }
    requires i_bound { i < 16 }
    ensures { Meets t (alter_thread i (with_result res)) result }
{
    let mut x = thread(t, i);
    x.result = res;
    with_thread(t, i, x)
}

pub fn with_delivered(t: Table, i: u8, word: u16) -> Table
    requires orderly_table { OrderlyTable t }
    requires i_bound { i < 16 }
    ensures { Meets t (alter_thread i (with_delivered word)) result }
{
    let mut x = thread(t, i);
    x.delivered = word;
    with_thread(t, i, x)
}
