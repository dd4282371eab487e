// Entering a list: a tail, or in a wait list the place that the current priority gives.
ghost use Rattle.std.specs.Prelude.{◌≡◌, ℕ, ◌<◌, ◌≤◌, ltb, get_or, take};
ghost use Rattle.sequences.specs.Lists.{first_at};
ghost use Rattle.model.specs.Before.{Rows, view, list_at, thread_at};
ghost use Rattle.model.specs.Words.{enter_tail, enter_ready, rank, enter_by_priority};
ghost use Rattle.table.specs.Orderly.{OrderlyTable, Orderly, Ranked, Meets, Does};

use crate::{lists, threads};
use model::tables::{Table, Thread};

pub fn enter_tail(t: Table, j: usize, i: u8) -> Table
    requires orderly_table { OrderlyTable t }
    requires j_bound { (j < 18) × ((list_at t.waits j).length < 16) }
    ensures { Meets t (enter_tail j i) result }
{
    let old = t.waits[j];
    let grown = lists::with_tail(old, i);
    let mut u = t;
    u.waits[j] = grown;
    u
}

// The tail of the ready list of its current priority.
pub fn enter_ready(t: Table, rows: &mut [[u8; 16]; 8], i: u8) -> Table
    requires orderly { Orderly t rows.old }
    requires i_bound { (i < 16) × ((thread_at t.threads i).current < 8) × (get_or t.lengths (thread_at t.threads i).current 0 < 16) }
    ensures { Does t rows.old (enter_ready i) result rows.new }
{
    let x = threads::thread(t, i);
    let p = x.current as usize;
    let mut lengths = t.lengths;
    let old = *rows;
    let grown = rows::eight::push(old, lengths, p, i);
    *rows = grown;
    lengths[p] = lengths[p] + 1;
    let mut u = t;
    u.lengths = lengths;
    u
}

// The first place whose thread has a current priority below p, or the end.
fn place_below(ids: [u8; 16], n: usize, threads: [Thread; 16], p: u8) -> usize
    requires n_bound { n ≤ 16 }
    requires by_index { (k : ℕ) → k < n → get_or ids k 0 < 16 }
    ensures { result ≡ first_at (λ x. ltb (thread_at threads x).current p) (take n ids) }
{
    ids[..n]
        .iter()
        .position(|i| threads[*i as usize].current < p)
        .unwrap_or(n)
}

// Past everyone with the same current priority or a higher one (01, Calls, on entering a wait list).
fn rank(t: Table, j: usize, i: u8) -> usize
    requires orderly_table { OrderlyTable t }
    requires ranked { Ranked t j i }
    ensures { (rows : Rows) → result ≡ rank j i (view t rows) }
{
    let l = t.waits[j];
    let ids = l.ids;
    let n = l.length as usize;
    let all = t.threads;
    let x = threads::thread(t, i);
    place_below(ids, n, all, x.current)
}

pub fn enter_by_priority(t: Table, j: usize, i: u8) -> Table
    requires orderly_table { OrderlyTable t }
    requires ranked { Ranked t j i }
    requires j_bound { (list_at t.waits j).length < 16 }
    ensures { Meets t (enter_by_priority j i) result }
{
    let k = rank(t, j, i);
    let old = t.waits[j];
    let grown = lists::with_at(old, k, i);
    let mut u = t;
    u.waits[j] = grown;
    u
}
