// A fresh table and its rows (01, The table): nothing created, every number 0, every list empty, scheduling on, nobody chosen.
ghost use Rattle.std.specs.Prelude.{◌≡◌, []};
ghost use Rattle.model.specs.State.{absent_semaphore, absent_mutex, absent_flags, unused_timer};
ghost use Rattle.model.specs.Before.{laid_list, fresh_table, fresh_rows};

use model::tables::{Flags, IdList, Mutex, NOBODY, Semaphore, Table, Timer};

// A timer that was never started.
fn unused_timer() -> Timer
    ensures { result ≡ unused_timer }
{
    Timer::default()
}

pub fn absent_semaphore() -> Semaphore
    ensures { result ≡ absent_semaphore }
{
    Semaphore::default()
}

pub fn absent_mutex() -> Mutex
    ensures { result ≡ absent_mutex }
{
    Mutex::default()
}

pub fn absent_flags() -> Flags
    ensures { result ≡ absent_flags }
{
    Flags::default()
}

fn empty_list() -> IdList
    ensures { result ≡ laid_list [] }
{
    IdList::default()
}

pub fn fresh() -> Table
    ensures { result ≡ fresh_table }
{
    let thread = rules::threads::absent_thread();
    let semaphore = absent_semaphore();
    let mutex = absent_mutex();
    let object = absent_flags();
    let timer = unused_timer();
    let list = empty_list();
    let threads = [thread; 16];
    let semaphores = [semaphore; 8];
    let mutexes = [mutex; 4];
    let flags = [object; 4];
    let timers = [timer; 8];
    let lengths = [0u8; 8];
    let waits = [list; 18];
    Table {
        clock: 0,
        off: 0,
        chosen: NOBODY,
        threads: threads,
        semaphores: semaphores,
        mutexes: mutexes,
        flags: flags,
        timers: timers,
        lengths: lengths,
        waits: waits,
    }
}

pub fn fresh_rows() -> [[u8; 16]; 8]
    ensures { result ≡ fresh_rows }
{
    let row = [0u8; 16];
    [row; 8]
}
