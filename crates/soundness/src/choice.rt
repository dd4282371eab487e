// The choice: with scheduling on it is the head of the highest ready list that isn't empty, off it is any ready thread or nobody.
ghost use Rattle.std.specs.Prelude.{◌≡◌};
ghost use Rattle.sequences.specs.Lists.{among_any, take_each};
ghost use Rattle.rows.specs.Row.{Rows};
ghost use Rattle.model.specs.Before.{view};
ghost use Rattle.model.specs.Sound.{choice_fits};

use model::tables::{NOBODY, Table};

pub fn on_ready_list(lengths: [u8; 8], rows: [[u8; 16]; 8], i: u8) -> bool
    requires { Rows 16 8 rows lengths }
    ensures { result ≡ among_any i (take_each lengths rows) }
{
    (0..8).any(|p| rows::eight::find(rows, lengths, p, i) < lengths[p] as usize)
}

pub fn choice_fits(t: Table, rows: [[u8; 16]; 8]) -> bool
    requires { Rows 16 8 rows t.lengths }
    ensures { result ≡ choice_fits (view t rows) }
{
    let lengths = t.lengths;
    let chosen = t.chosen;
    if t.off == 0 {
        let best = table::choosing::choice(lengths, rows);
        chosen == best
    } else {
        let ready = on_ready_list(lengths, rows, chosen);
        (chosen == NOBODY) | ready
    }
}
