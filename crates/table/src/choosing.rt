// The choice, and what choosing writes. The rows come by value beside the table and stay as they are.
ghost use Rattle.std.specs.Prelude.{◌≡◌};
ghost use Rattle.sequences.specs.Lists.{head_or, last_nonempty, take_each};
ghost use Rattle.rows.specs.Row.{Rows};
ghost use Rattle.model.specs.State.{nobody};
ghost use Rattle.model.specs.Words.{choose};
ghost use Rattle.table.specs.Orderly.{Orderly, Does};

use model::tables::{NOBODY, Table};

// The head of the highest ready list that isn't empty, or nobody.
pub fn choice(lengths: [u8; 8], rows: [[u8; 16]; 8]) -> u8
    requires { Rows 16 8 rows lengths }
    ensures { result ≡ head_or (last_nonempty (take_each lengths rows)) nobody }
{
    for p in (0..8).rev() {
        if 0 < lengths[p] {
            return rows[p][0];
        }
    }
    NOBODY
}

// A thread that comes to be chosen has all of its quantum again; where nobody is chosen, nobody has.
pub fn choose(t: Table, rows: [[u8; 16]; 8]) -> Table
    requires { Orderly t rows }
    ensures { Does t rows choose result rows }
{
    let lengths = t.lengths;
    let c = choice(lengths, rows);
    let mut u = t;
    if (u.off == 0) & (c != u.chosen) {
        if c < 16 {
            let k = c as usize;
            let mut x = u.threads[k];
            x.left = x.quantum;
            u.threads[k] = x;
        }
        u.chosen = c;
    }
    u
}
