// A new current priority: who is ready goes behind all others of it, who waits is ranked anew, any other stays where it is; no change, no
// move (01, Calls, on a changed priority).
ghost use Rattle.std.specs.Prelude.{◌<◌, ◌≡◌, true, false};
ghost use Rattle.model.specs.Before.{view};
ghost use Rattle.model.specs.Parts.{alter_thread, with_current};
ghost use Rattle.model.specs.Words.{is_ready, re_enter, take_priority};
ghost use Rattle.table.specs.Orderly.{Given, Does};

use crate::{entering, leaving, standing, threads};
use model::lists::{LIST_COUNT, SEMAPHORE_LIST};
use model::tables::Table;

fn take_ready(t: Table, rows: &mut [[u8; 16]; 8], i: u8, p: u8) -> Table
    requires given { Given t rows.old i }
    requires p_bound { (p < 8) × (is_ready i (view t rows.old) ≡ true) }
    ensures { Does t rows.old (λ s. re_enter i (alter_thread i (with_current p) s)) result rows.new }
{
    let k = i as usize;
    let mut x = t.threads[k];
    let old = x.current as usize;
    let new = p as usize;
    let mut lengths = t.lengths;
    let all = *rows;
    let at = rows::eight::find(all, lengths, old, i);
    let shrunk = rows::eight::remove(all, lengths, old, at);
    lengths[old] = lengths[old] - 1;
    let grown = rows::eight::push(shrunk, lengths, new, i);
    *rows = grown;
    lengths[new] = lengths[new] + 1;
    x.current = p;
    let mut u = t;
    u.threads[k] = x;
    u.lengths = lengths;
    u
}

fn take_elsewhere(t: Table, rows: &mut [[u8; 16]; 8], i: u8, p: u8) -> Table
    requires given { Given t rows.old i }
    requires p_bound { (p < 8) × (is_ready i (view t rows.old) ≡ false) }
    ensures { Does t rows.old (λ s. re_enter i (alter_thread i (with_current p) s)) result rows.new }
{
    let j = standing::list_of(t, i);
    if (SEMAPHORE_LIST <= j) & (j < LIST_COUNT) {
        let u = leaving::leave_list(t, j, i);
        let v = threads::with_current(u, i, p);
        entering::enter_by_priority(v, j, i)
    } else {
        threads::with_current(t, i, p)
    }
}

pub fn take_priority(t: Table, rows: &mut [[u8; 16]; 8], i: u8, p: u8) -> Table
    requires given { Given t rows.old i }
    requires p_bound { p < 8 }
    ensures { Does t rows.old (take_priority i p) result rows.new }
{
    let x = threads::thread(t, i);
    if x.current == p {
        return t;
    }
    let all = *rows;
    if standing::is_ready(t, all, i) {
        take_ready(t, &mut *rows, i, p)
    } else {
        take_elsewhere(t, &mut *rows, i, p)
    }
}
