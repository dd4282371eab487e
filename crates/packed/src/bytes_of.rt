// The records of the table in bytes, as they stand in the image (docs/IMAGE.md).
ghost use Rattle.std.specs.Prelude.{◌≡◌};
ghost use Rattle.sequences.specs.Records.{bytes_of};
ghost use Rattle.model.specs.Layout.{threads_at, semaphores_at, mutexes_at, flags_at, timers_at};

use model::tables::{Flags, Mutex, Semaphore, Thread, Timer};

pub fn thread(t: Thread) -> [u8; 17]
    ensures { result ≡ bytes_of threads_at t }
{
    let quantum = t.quantum.to_le_bytes();
    let left = t.left.to_le_bytes();
    let limit = t.limit.to_le_bytes();
    let mask = t.mask.to_le_bytes();
    let delivered = t.delivered.to_le_bytes();
    [
        t.created,
        t.base,
        t.current,
        quantum[0],
        quantum[1],
        left[0],
        left[1],
        limit[0],
        limit[1],
        limit[2],
        limit[3],
        t.result,
        mask[0],
        mask[1],
        t.mode,
        delivered[0],
        delivered[1],
    ]
}

pub fn semaphore(x: Semaphore) -> [u8; 5]
    ensures { result ≡ bytes_of semaphores_at x }
{
    let count = x.count.to_le_bytes();
    let maximum = x.maximum.to_le_bytes();
    [x.created, count[0], count[1], maximum[0], maximum[1]]
}

pub fn mutex(x: Mutex) -> [u8; 3]
    ensures { result ≡ bytes_of mutexes_at x }
{
    [x.created, x.owner, x.depth]
}

pub fn flag_object(x: Flags) -> [u8; 3]
    ensures { result ≡ bytes_of flags_at x }
{
    let word = x.word.to_le_bytes();
    [x.created, word[0], word[1]]
}

pub fn timer(t: Timer) -> [u8; 17]
    ensures { result ≡ bytes_of timers_at t }
{
    let period = t.period.to_le_bytes();
    let left = t.left.to_le_bytes();
    let mask = t.mask.to_le_bytes();
    let count = t.count.to_le_bytes();
    [
        period[0], period[1], period[2], period[3], left[0], left[1], left[2], left[3], t.repeat,
        t.kind, t.object, mask[0], mask[1], count[0], count[1], count[2], count[3],
    ]
}
