// Ready, waiting, asleep, awake (01, Calls, the rules under the table). Limit, mask and mode are handed on one by one, as the model's words take them.
ghost use Rattle.std.specs.Prelude.{◌<◌};
ghost use Rattle.model.specs.Words.{become_ready, suspend, start_to_wait, start_to_sleep, wake};
ghost use Rattle.table.specs.Orderly.{Given, Does};

use crate::{entering, leaving, lists, standing, threads};
use model::lists::{LIST_COUNT, SLEEP_LIST};
use model::tables::Table;

pub fn become_ready(t: Table, rows: &mut [[u8; 16]; 8], i: u8) -> Table
    requires { Given t rows.old i }
    ensures { Does t rows.old (become_ready i) result rows.new }
{
    let u = leaving::leave(t, &mut *rows, i);
    entering::enter_ready(u, &mut *rows, i)
}

// Off its list, with no result yet.
fn suspend(t: Table, rows: &mut [[u8; 16]; 8], i: u8, limit: u32, mask: u16, mode: u8) -> Table
    requires { Given t rows.old i }
    ensures { Does t rows.old (suspend i limit mask mode) result rows.new }
{
    let u = threads::with_wait(t, i, limit, 0, mask, mode);
    leaving::leave(u, &mut *rows, i)
}

pub fn start_to_wait(
    t: Table,
    rows: &mut [[u8; 16]; 8],
    j: usize,
    i: u8,
    limit: u32,
    mask: u16,
    mode: u8,
) -> Table
    requires given { Given t rows.old i }
    requires j_bound { j < 18 }
    ensures { Does t rows.old (start_to_wait j i limit mask mode) result rows.new }
{
    let k = i as usize;
    let mut u = t;
    let mut x = u.threads[k];
    x.limit = limit;
    x.result = 0;
    x.mask = mask;
    x.mode = mode;
    u.threads[k] = x;
    let p = x.current as usize;
    let mut lengths = u.lengths;
    let all = *rows;
    let at = rows::eight::find(all, lengths, p, i);
    if at == (lengths[p] as usize) {
        let off = leaving::leave(u, &mut *rows, i);
        return entering::enter_by_priority(off, j, i);
    }
    let shrunk = rows::eight::remove(all, lengths, p, at);
    *rows = shrunk;
    lengths[p] = lengths[p] - 1;
    u.lengths = lengths;
    entering::enter_by_priority(u, j, i)
}

pub fn start_to_sleep(t: Table, rows: &mut [[u8; 16]; 8], i: u8, span: u32) -> Table
    requires { Given t rows.old i }
    ensures { Does t rows.old (start_to_sleep i span) result rows.new }
{
    let u = suspend(t, &mut *rows, i, span, 0, 0);
    entering::enter_tail(u, SLEEP_LIST, i)
}

// Who waits or sleeps is taken off that list and put behind the others of its priority by one function, so that the table isn't handed on.
pub fn wake(t: Table, rows: &mut [[u8; 16]; 8], i: u8, res: u8) -> Table
    requires { Given t rows.old i }
    ensures { Does t rows.old (wake i res) result rows.new }
{
    let k = i as usize;
    let mut u = t;
    let mut x = u.threads[k];
    x.limit = 0;
    x.result = res;
    x.mask = 0;
    x.mode = 0;
    u.threads[k] = x;
    let j = standing::list_of(u, i);
    if j == LIST_COUNT {
        return become_ready(u, &mut *rows, i);
    }
    let old = u.waits[j];
    let shrunk = lists::without(old, i);
    u.waits[j] = shrunk;
    let p = x.current as usize;
    let mut lengths = u.lengths;
    let all = *rows;
    let grown = rows::eight::push(all, lengths, p, i);
    *rows = grown;
    lengths[p] = lengths[p] + 1;
    u.lengths = lengths;
    u
}
