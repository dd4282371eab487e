// Threads of one priority that take turns: a ready list with one of its threads behind all others.
ghost use Rattle.std.specs.Prelude.{◌<◌, slice_index};
ghost use Rattle.sequences.specs.Lists.{snoc, remove_at};
ghost use Rattle.rows.specs.Row.{Rows, Changed};

// From place k of ready list p to behind all others; the list is as long as before.
pub fn turn_over(rows: &mut [[u8; 16]; 8], lengths: [u8; 8], p: usize, k: usize, i: u8)
    requires rows { Rows 16 8 rows.old lengths }
    requires p_bound { (p < 8) × (k < slice_index lengths p) }
    ensures { Changed 16 8 rows.old lengths p (slice_index lengths p) (λ l. snoc i (remove_at k l)) rows.new }
{
    let old = *rows;
    let shrunk = rows::eight::remove(old, lengths, p, k);
    let mut less = lengths;
    less[p] -= 1;
    let grown = rows::eight::push(shrunk, less, p, i);
    *rows = grown;
}
