// Semaphores, mutexes and flag objects: each record with how many wait for it.
ghost use Rattle.std.specs.Prelude.{◌≡◌, true, ◌+◌, get_or};
ghost use Rattle.sequences.specs.Lists.{every_below, among};
ghost use Rattle.rows.specs.Row.{Row};
ghost use Rattle.model.specs.State.{absent_semaphore, absent_mutex, absent_flags};
ghost use Rattle.model.specs.Before.{ids_of, list_at, thread_at};
ghost use Rattle.soundness.specs.Lists.{wait_list_fits};
ghost use Rattle.soundness.specs.Records.{semaphore_fits, mutex_fits, flags_fit};

use model::lists::{FLAGS_LIST, MUTEX_LIST, SEMAPHORE_LIST};
use model::tables::{Flags, IdList, Mutex, Semaphore, Thread};

pub fn semaphore_fits(x: Semaphore, waiters: u8) -> bool
    ensures { result ≡ semaphore_fits x waiters }
{
    (x.created <= 1)
        & ((x.created != 1) | (0 < x.maximum))
        & ((waiters == 0) | (x.count == 0))
        & (x.count <= x.maximum)
        & ((x.created != 0) | (((x.count == 0) & (x.maximum == 0)) & (waiters == 0)))
}

pub fn semaphores_fit(semaphores: [Semaphore; 8], waits: [IdList; 18]) -> bool
    ensures { result ≡ every_below 8 (λ o. semaphore_fits (get_or semaphores o absent_semaphore) (list_at waits (2 + o)).length) }
{
    (0..8).all(|o| semaphore_fits(semaphores[o], waits[SEMAPHORE_LIST + o].length))
}

pub fn mutex_fits(x: Mutex, owner: Thread, waiters: u8, own_waiter: bool) -> bool
    ensures { result ≡ mutex_fits x owner waiters own_waiter }
{
    (x.created <= 1)
        & (x.owner < 16)
        & ((x.depth != 0) | (x.owner == 0))
        & ((waiters == 0) | (0 < x.depth))
        & ((x.depth == 0) | (owner.created == 1))
        & ((x.depth == 0) | !own_waiter)
        & ((x.created != 0) | (((x.owner == 0) & (x.depth == 0)) & (waiters == 0)))
}

// A mutex and those who wait for it. An owner out of range has no record: mutex_fits refuses it whatever stands in its place.
fn awaited_mutex_fits(x: Mutex, threads: &[Thread; 16], waiting: IdList) -> bool
    requires { Row 16 waiting.ids waiting.length }
    ensures { result ≡ mutex_fits x (thread_at threads.now x.owner) waiting.length (among x.owner (ids_of waiting)) }
{
    let owner = threads[(x.owner % 16) as usize];
    let own_waiter = table::lists::holds_id(waiting, x.owner);
    mutex_fits(x, owner, waiting.length, own_waiter)
}

pub fn mutexes_fit(mutexes: [Mutex; 4], threads: [Thread; 16], waits: [IdList; 18]) -> bool
    requires { every_below 18 (λ j. wait_list_fits (list_at waits j)) ≡ true }
    ensures { result ≡ every_below 4 (λ o. mutex_fits (get_or mutexes o absent_mutex) (thread_at threads (get_or mutexes o absent_mutex).owner) (list_at waits (10 + o)).length (among (get_or mutexes o absent_mutex).owner (ids_of (list_at waits (10 + o))))) }
{
    (0..4).all(|o| awaited_mutex_fits(mutexes[o], &threads, waits[MUTEX_LIST + o]))
}

pub fn flags_fit(x: Flags, waiters: u8) -> bool
    ensures { result ≡ flags_fit x waiters }
{
    (x.created <= 1) & ((x.created != 0) | ((x.word == 0) & (waiters == 0)))
}

pub fn all_flags_fit(flags: [Flags; 4], waits: [IdList; 18]) -> bool
    ensures { result ≡ every_below 4 (λ o. flags_fit (get_or flags o absent_flags) (list_at waits (14 + o)).length) }
{
    (0..4).all(|o| flags_fit(flags[o], waits[FLAGS_LIST + o].length))
}
