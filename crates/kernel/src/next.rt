// The next wake-up, worked out from the records each time it is asked for: nothing is kept that could be out of date.
ghost use Rattle.std.specs.Prelude.{◌≡◌, cond, leb, get_or};
ghost use Rattle.model.specs.Parts.{thread};
ghost use Rattle.model.specs.Tick.{quantum_counts};
ghost use Rattle.model.specs.Time.{next};
ghost use Rattle.model.specs.Before.{Rows, view};
ghost use Rattle.table.specs.Orderly.{Orderly};

use model::tables::Table;
use rules::counting;
use table::objects;

// Whether two threads or more stand on the ready list of priority p. Past the last priority there is no list.
fn is_shared(lengths: [u8; 8], p: u8) -> bool
    ensures { result ≡ leb 2 (get_or lengths p 0) }
{
    let k = p as usize;
    if k < 8 { 2 <= lengths[k] } else { false }
}

// What is left of the running thread's quantum, where it counts (01, One tick, 2); else 0. Where nobody runs there is no quantum.
pub fn quantum_left(t: Table) -> u16
    requires { (rows : Rows) × Orderly t rows }
    ensures { (rows : Rows) → Orderly t rows → result ≡ cond (quantum_counts (view t rows)) (thread t.chosen (view t rows)).left 0 }
{
    let all = t.threads;
    let lengths = t.lengths;
    let x = objects::thread(all, t.chosen as u32);
    if (t.off == 0) & (0 < x.quantum) & is_shared(lengths, x.current) {
        x.left
    } else {
        0
    }
}

// How long the ready lists are is all that is asked of them, and that stands in the table.
pub fn next_wake_up(t: Table) -> u32
    requires { (rows : Rows) × Orderly t rows }
    ensures { (rows : Rows) → Orderly t rows → result ≡ next (view t rows) }
{
    let quantum = u32::from(quantum_left(t));
    let timer = t.timers.iter().map(|x| x.left).fold(0, counting::nearer);
    let limit = t.threads.iter().map(|x| x.limit).fold(0, counting::nearer);
    let later = counting::nearer(timer, limit);
    counting::nearer(quantum, later)
}
