// Quiet ticks at once: what runs is less by as many, and nothing else happens.
ghost use Rattle.model.specs.Before.{Rows};
ghost use Rattle.table.specs.Orderly.{Whole, Does};
ghost use Rattle.theorems.specs.Skip.{skip};

use crate::quantum;
use model::tables::Table;

pub fn skip(t: Table, m: u32) -> Table
    requires { (rows : Rows) × Whole t rows }
    ensures { (rows : Rows) → Whole t rows → Does t rows (skip m) result rows }
{
    let mut u = quantum::spend(t, m);
    for x in &mut u.threads {
        x.limit = x.limit.saturating_sub(m);
    }
    for x in &mut u.timers {
        x.left = x.left.saturating_sub(m);
    }
    u
}
