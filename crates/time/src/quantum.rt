// The quantum of the running thread (01, One tick, 2).
ghost use Rattle.std.specs.Prelude.{◌<◌};
ghost use Rattle.model.specs.Before.{Rows};
ghost use Rattle.table.specs.Orderly.{Whole, Does};
ghost use Rattle.theorems.specs.Leap.{spend, quantum_leap};

use crate::rounds;
use kernel::next;
use model::tables::Table;
use table::{threads, waking};

// Less by m, where it counts. The rows stay as they are, so they aren't asked for.
pub fn spend(t: Table, m: u32) -> Table
    requires { (rows : Rows) × Whole t rows }
    ensures { (rows : Rows) → Whole t rows → Does t rows (spend m) result rows }
{
    let left = next::quantum_left(t);
    if left == 0 {
        t
    } else {
        let rest = u32::from(left).saturating_sub(m);
        threads::with_left(t, t.chosen, rest as u16)
    }
}

// By all that is left of it: behind all others of the priority, with the whole quantum again. Who isn't ready becomes so.
pub fn quantum_leap(t: Table, rows: &mut [[u8; 16]; 8], gap: u32) -> Table
    requires whole { Whole t rows.old }
    requires gap_nonzero { 0 < gap }
    ensures { Does t rows.old (quantum_leap gap) result rows.new }
{
    let left = next::quantum_left(t) as u32;
    let mut u = t;
    if 0 < left {
        let c = u.chosen;
        let i = c as usize;
        let mut x = u.threads[i];
        if left == gap {
            x.left = x.quantum;
            u.threads[i] = x;
            let lengths = u.lengths;
            let p = x.current as usize;
            let old = *rows;
            let k = rows::eight::find(old, lengths, p, c);
            if k < (lengths[p] as usize) {
                rounds::turn_over(rows, lengths, p, k, c);
            } else {
                u = waking::become_ready(u, rows, c);
            }
        } else {
            x.left = left.saturating_sub(gap) as u16;
            u.threads[i] = x;
        }
    }
    u
}
