// Whether a table and its rows are sound (01, The table). Any field may hold anything: each pass below is safe on all of them, and a list
// is walked only once its length and its ids are known to be in range.
#![tactic(auto)]

ghost use Rattle.std.specs.Prelude.{◌≡◌, true, ◌&&◌};
ghost use Rattle.model.specs.Before.{view, sound_table};
ghost use Rattle.soundness.specs.Shape.{Shape};
ghost use Rattle.soundness.specs.Whole.{lists_fit, members_fit, threads_fit, records_fit};

use model::lists::{FLAGS_LIST, SEMAPHORE_LIST, SLEEP_LIST, STOPPED_LIST};
use model::tables::Table;
use walks::Members;

mod choice;
mod lists;
mod objects;
mod threads;
mod timers;
mod walks;

fn lists_fit(t: Table, rows: [[u8; 16]; 8]) -> bool
    ensures { result ≡ lists_fit t rows }
{
    let most = lists::MOST;
    let ready = lists::ready_lists_fit(rows, t.lengths, &most);
    let others = lists::wait_lists_fit(t.waits, &most);
    ready & others
}

// One walk over all lists, the flag objects' first, so that the counts on the way tell who waits for flags and who waits or sleeps; then one
// over the threads.
fn threads_fit(t: Table, rows: [[u8; 16]; 8]) -> bool
    requires shape { Shape t rows }
    requires rows_value { lists_fit t rows ≡ true }
    ensures { result ≡ (members_fit (view t rows) && threads_fit (view t rows)) }
{
    let all = &t.threads;
    let waits = &t.waits;
    let mut counts = [0u16; 16];
    let flagged = walks::walk_flags(&mut counts, waits, all, t.flags);
    let on_flags = counts;
    let waiting = walks::walk_waits(
        &mut counts,
        waits,
        SEMAPHORE_LIST,
        FLAGS_LIST,
        all,
        Members::Object,
    );
    let asleep = walks::walk_waits(
        &mut counts,
        waits,
        SLEEP_LIST,
        STOPPED_LIST,
        all,
        Members::Sleep,
    );
    let at_rest = counts;
    let parked = walks::walk_waits(
        &mut counts,
        waits,
        STOPPED_LIST,
        SEMAPHORE_LIST,
        all,
        Members::Stopped,
    );
    let ready = walks::walk_ready(&mut counts, rows, t.lengths, all);
    let fits = threads::threads_fit(t.threads, t.mutexes, counts, at_rest, on_flags);
    flagged & waiting & asleep & parked & ready & fits
}

fn records_fit(t: Table, rows: [[u8; 16]; 8]) -> bool
    requires shape { Shape t rows }
    requires rows_value { lists_fit t rows ≡ true }
    ensures { result ≡ records_fit (view t rows) }
{
    let a = objects::semaphores_fit(t.semaphores, t.waits);
    let b = objects::mutexes_fit(t.mutexes, t.threads, t.waits);
    let c = objects::all_flags_fit(t.flags, t.waits);
    let d = timers::timers_fit(t.timers, t.semaphores, t.flags);
    (t.off <= 1) & a & b & c & d
}

pub fn is_sound(t: Table, rows: [[u8; 16]; 8]) -> bool
    ensures { result ≡ sound_table t rows }
{
    if lists_fit(t, rows) {
        let threads = threads_fit(t, rows);
        let records = records_fit(t, rows);
        let chosen = choice::choice_fits(t, rows);
        threads & records & chosen
    } else {
        false
    }
}
