// Eight rows, each with its length in an array beside them, which the caller writes anew. Each function is that of one row, at row p.
ghost use Rattle.std.specs.Prelude.{◌≡◌, [], ◌+◌, ◌-◌, ◌<◌, eqb, get_or};
ghost use Rattle.sequences.specs.Lists.{snoc, remove_at, first_at, take_each};
ghost use Rattle.rows.specs.Row.{Rows, Changed};

use crate::row;

pub fn push(rows: [[u8; 16]; 8], lengths: [u8; 8], p: usize, x: u8) -> [[u8; 16]; 8]
    requires rows { Rows 16 8 rows lengths }
    requires p_bound { (p < 8) × (get_or lengths p 0 < 16) }
    ensures { Changed 16 8 rows lengths p (get_or lengths p 0 + 1) (snoc x) result }
{
    let mut all = rows;
    all[p] = row::push(rows[p], usize::from(lengths[p]), x);
    all
}

pub fn remove(rows: [[u8; 16]; 8], lengths: [u8; 8], p: usize, k: usize) -> [[u8; 16]; 8]
    requires rows { Rows 16 8 rows lengths }
    requires p_bound { (p < 8) × (k < get_or lengths p 0) }
    ensures { Changed 16 8 rows lengths p (get_or lengths p 0 - 1) (remove_at k) result }
{
    let mut all = rows;
    all[p] = row::remove(rows[p], usize::from(lengths[p]), k);
    all
}

pub fn find(rows: [[u8; 16]; 8], lengths: [u8; 8], p: usize, x: u8) -> usize
    requires rows { Rows 16 8 rows lengths }
    requires p_bound { p < 8 }
    ensures { result ≡ first_at (λ y. eqb y x) (get_or (take_each lengths rows) p []) }
{
    row::find(rows[p], usize::from(lengths[p]), x)
}
