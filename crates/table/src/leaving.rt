// Leaving the list that a thread stands on.
ghost use Rattle.std.specs.Prelude.{◌≡◌, true, map, ◌<◌, ◌≤◌};
ghost use Rattle.sequences.specs.Lists.{alter, without, count, count_all};
ghost use Rattle.model.specs.Parts.{with_waits};
ghost use Rattle.model.specs.Before.{view, ids_of, list_at};
ghost use Rattle.model.specs.Words.{is_ready, leave};
ghost use Rattle.table.specs.Orderly.{OrderlyTable, Given, Meets, Does};

use crate::{lists, standing, threads};
use model::lists::LIST_COUNT;
use model::tables::Table;

// Off list j, which is no ready list.
pub fn leave_list(t: Table, j: usize, i: u8) -> Table
    requires orderly_table { OrderlyTable t }
    requires j_bound { (j < 18) × (count i (ids_of (list_at t.waits j)) ≤ 1) }
    ensures { Meets t (λ s. with_waits (alter j (without i) s.waits) s) result }
{
    let old = t.waits[j];
    let shrunk = lists::without(old, i);
    let mut u = t;
    u.waits[j] = shrunk;
    u
}

// Off its ready list.
fn leave_ready(t: Table, rows: &mut [[u8; 16]; 8], i: u8) -> Table
    requires given { Given t rows.old i }
    requires rows_value { is_ready i (view t rows.old) ≡ true }
    ensures { Does t rows.old (leave i) result rows.new }
{
    let x = threads::thread(t, i);
    let p = x.current as usize;
    let mut lengths = t.lengths;
    let old = *rows;
    let k = rows::eight::find(old, lengths, p, i);
    let shrunk = rows::eight::remove(old, lengths, p, k);
    *rows = shrunk;
    lengths[p] = lengths[p] - 1;
    let mut u = t;
    u.lengths = lengths;
    u
}

// Off all lists but the ready ones.
fn leave_other(t: Table, i: u8) -> Table
    requires orderly_table { OrderlyTable t }
    requires waits_bound { count_all i (map ids_of t.waits) ≤ 1 }
    ensures { Meets t (λ s. with_waits (map (without i) s.waits) s) result }
{
    let j = standing::list_of(t, i);
    if j < LIST_COUNT {
        leave_list(t, j, i)
    } else {
        t
    }
}

pub fn leave(t: Table, rows: &mut [[u8; 16]; 8], i: u8) -> Table
    requires { Given t rows.old i }
    ensures { Does t rows.old (leave i) result rows.new }
{
    let all = *rows;
    if standing::is_ready(t, all, i) {
        leave_ready(t, &mut *rows, i)
    } else {
        leave_other(t, i)
    }
}
