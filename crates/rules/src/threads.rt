// A thread's record as it begins and as it ends (01, Calls, calls 1 and 4).
ghost use Rattle.std.specs.Prelude.{◌≡◌};
ghost use Rattle.model.specs.State.{absent_thread};
ghost use Rattle.model.specs.Effects.{new_thread};

use model::tables::Thread;

// Just created.
pub fn new_thread(priority: u8, quantum: u16) -> Thread
    ensures { result ≡ new_thread priority quantum }
{
    Thread {
        created: 1,
        base: priority,
        current: priority,
        quantum,
        left: quantum,
        ..Thread::default()
    }
}

// A thread that isn't there.
pub fn absent_thread() -> Thread
    ensures { result ≡ absent_thread }
{
    Thread::default()
}
