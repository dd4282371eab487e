// The record of an object or of a timer, the clock and the mark of scheduling, written with all else as it was. Each of the
// first four names its own array of the table and its own change of the model: no function of all four could say that.
ghost use Rattle.std.specs.Prelude.{◌<◌};
ghost use Rattle.model.specs.Parts.{with_clock, with_off, alter_semaphore, alter_mutex, alter_flags, alter_timer};
ghost use Rattle.table.specs.Orderly.{OrderlyTable, Meets};

use model::tables::{Flags, Mutex, Semaphore, Table, Timer};

pub fn with_semaphore(mut t: Table, o: usize, x: Semaphore) -> Table
    requires orderly_table { OrderlyTable t }
    requires o_bound { o < 8 }
    ensures { Meets t (alter_semaphore o (λ _. x)) result }
{
    t.semaphores[o] = x;
    t
}

pub fn with_mutex(mut t: Table, o: usize, x: Mutex) -> Table
    requires orderly_table { OrderlyTable t }
    requires o_bound { o < 4 }
    ensures { Meets t (alter_mutex o (λ _. x)) result }
{
    t.mutexes[o] = x;
    t
}

pub fn with_flags(mut t: Table, o: usize, x: Flags) -> Table
    requires orderly_table { OrderlyTable t }
    requires o_bound { o < 4 }
    ensures { Meets t (alter_flags o (λ _. x)) result }
{
    t.flags[o] = x;
    t
}

pub fn with_timer(mut t: Table, o: usize, x: Timer) -> Table
    requires orderly_table { OrderlyTable t }
    requires o_bound { o < 8 }
    ensures { Meets t (alter_timer o (λ _. x)) result }
{
    t.timers[o] = x;
    t
}

pub fn with_clock(mut t: Table, clock: u32) -> Table
    requires { OrderlyTable t }
    ensures { Meets t (with_clock clock) result }
{
    t.clock = clock;
    t
}

pub fn with_off(mut t: Table, off: u8) -> Table
    requires { OrderlyTable t }
    ensures { Meets t (with_off off) result }
{
    t.off = off;
    t
}
