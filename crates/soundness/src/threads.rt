// Each thread's record, with where the thread stands and whether it owns a mutex.
ghost use Rattle.std.specs.Prelude.{◌≡◌, ◌||◌, eqb, get_or};
ghost use Rattle.sequences.specs.Lists.{every_below};
ghost use Rattle.model.specs.Ranges.{◌implies◌};
ghost use Rattle.model.specs.Sound.{thread_in_range, zero_thread};
ghost use Rattle.table.specs.Owners.{owns_one_of};
ghost use Rattle.model.specs.Before.{thread_at};
ghost use Rattle.soundness.specs.Records.{thread_fits};

use model::modes::Mode;
use model::tables::{Mutex, Thread};

fn thread_in_range(t: Thread) -> bool
    ensures { result ≡ thread_in_range t }
{
    (t.created <= 1)
        & (t.base < 8)
        & (t.current < 8)
        & (t.result <= 2)
        & (t.mode <= Mode::AllClear as u8)
}

fn zero_thread(t: Thread) -> bool
    ensures { result ≡ zero_thread t }
{
    t == Thread::default()
}

// Nothing is left of a thread that isn't there; the record of one that is there isn't gone over for it.
fn absent_is_zero(t: Thread) -> bool
    ensures { result ≡ (eqb t.created 0 implies zero_thread t) }
{
    if t.created == 0 { zero_thread(t) } else { true }
}

pub fn thread_fits(t: Thread, standing: u16, resting: u16, flagged: u16, owner: bool) -> bool
    ensures { result ≡ thread_fits t standing resting flagged owner }
{
    let in_range = thread_in_range(t);
    let zero = absent_is_zero(t);
    in_range
        & (standing == (t.created as u16))
        & zero
        & ((t.base <= t.current) & (owner | (t.current == t.base)))
        & ((resting != 0) | (t.limit == 0))
        & ((flagged != 0) | ((t.mask == 0) & (t.mode == 0)))
        & ((resting == 0) | (t.result == 0))
        & ((t.left <= t.quantum) & ((t.quantum == 0) | (0 < t.left)))
}

// Whether it owns a mutex; nobody looks where its current priority is its base, where it makes no difference.
fn may_exceed(t: Thread, mutexes: [Mutex; 4], i: u8) -> bool
    ensures { (result || eqb t.current t.base) ≡ (owns_one_of mutexes i || eqb t.current t.base) }
{
    if t.current == t.base {
        true
    } else {
        table::owners::owns_one_of(mutexes, i)
    }
}

pub fn threads_fit(
    threads: [Thread; 16],
    mutexes: [Mutex; 4],
    standing: [u16; 16],
    resting: [u16; 16],
    flagged: [u16; 16],
) -> bool
    ensures { result ≡ every_below 16 (λ i. thread_fits (thread_at threads i) (get_or standing i 0) (get_or resting i 0) (get_or flagged i 0) (owns_one_of mutexes i)) }
{
    (0..16).all(|i| {
        let t = threads[i];
        let owner = may_exceed(t, mutexes, i as u8);
        thread_fits(t, standing[i], resting[i], flagged[i], owner)
    })
}
