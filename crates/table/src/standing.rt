// Which list holds a thread. Only the list of its current priority is looked at for a ready one: soundness lets it stand on no other.
ghost use Rattle.std.specs.Prelude.{◌≡◌, map, ℕ, ◌<◌, get_or};
ghost use Rattle.sequences.specs.Lists.{among, first_at};
ghost use Rattle.rows.specs.Row.{Row};
ghost use Rattle.model.specs.Before.{Rows, view, ids_of, no_ids};
ghost use Rattle.model.specs.Words.{is_ready, is_stopped};
ghost use Rattle.model.specs.Sound.{waited_for};
ghost use Rattle.table.specs.Orderly.{OrderlyTable, Given};

use crate::{lists, threads};
use model::lists::{LIST_COUNT, STOPPED_LIST};
use model::tables::{IdList, Table};

pub fn is_ready(t: Table, rows: [[u8; 16]; 8], i: u8) -> bool
    requires { Given t rows i }
    ensures { result ≡ is_ready i (view t rows) }
{
    let x = threads::thread(t, i);
    let p = x.current as usize;
    let lengths = t.lengths;
    let k = rows::eight::find(rows, lengths, p, i);
    k < (lengths[p] as usize)
}

fn first_with(waits: [IdList; 18], i: u8) -> usize
    requires { (j : ℕ) → j < 18 → Row 16 (get_or waits j no_ids).ids (get_or waits j no_ids).length }
    ensures { result ≡ first_at (among i) (map ids_of waits) }
{
    waits
        .iter()
        .position(|l| lists::holds_id(*l, i))
        .unwrap_or(LIST_COUNT)
}

// The number of the list that it stands on, where that is no ready list; 18 where there is none.
pub fn list_of(t: Table, i: u8) -> usize
    requires { OrderlyTable t }
    ensures { result ≡ first_at (among i) (map ids_of t.waits) }
{
    let waits = t.waits;
    first_with(waits, i)
}

pub fn is_stopped(t: Table, i: u8) -> bool
    requires { OrderlyTable t }
    ensures { (rows : Rows) → result ≡ is_stopped i (view t rows) }
{
    let l = t.waits[STOPPED_LIST];
    lists::holds_id(l, i)
}

// Somebody stands on list j.
pub fn waited_for(t: Table, j: usize) -> bool
    requires orderly_table { OrderlyTable t }
    requires j_bound { j < 18 }
    ensures { (rows : Rows) → result ≡ waited_for j (view t rows) }
{
    let l = t.waits[j];
    0 < l.length
}
