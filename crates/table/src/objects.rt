// What an id names, and whether that is there. An id or a number may be any of 32 bits; what isn't there is all zero.
ghost use Rattle.std.specs.Prelude.{◌≡◌, get_or};
ghost use Rattle.model.specs.State.{absent_thread, absent_semaphore, absent_mutex, absent_flags};
ghost use Rattle.table.specs.Objects.{thread_there, semaphore_there, mutex_there, flags_there, names_one_of};

use crate::fresh;
use model::actions::Action;
use model::tables::{Flags, Mutex, Semaphore, Thread};

// The element that an id names, or what stands for none.
fn at<T: Copy>(all: &[T], id: u32, absent: T) -> T
    ensures { result ≡ get_or all.now id absent }
{
    all.get(id as usize).copied().unwrap_or(absent)
}

pub fn thread(threads: [Thread; 16], i: u32) -> Thread
    ensures { result ≡ get_or threads i absent_thread }
{
    at(&threads, i, rules::threads::absent_thread())
}

pub fn semaphore(semaphores: [Semaphore; 8], o: u32) -> Semaphore
    ensures { result ≡ get_or semaphores o absent_semaphore }
{
    at(&semaphores, o, fresh::absent_semaphore())
}

pub fn mutex(mutexes: [Mutex; 4], o: u32) -> Mutex
    ensures { result ≡ get_or mutexes o absent_mutex }
{
    at(&mutexes, o, fresh::absent_mutex())
}

pub fn flag_object(flags: [Flags; 4], o: u32) -> Flags
    ensures { result ≡ get_or flags o absent_flags }
{
    at(&flags, o, fresh::absent_flags())
}

// Four tests of one line: a trait that gives each kind its mark would be longer than they are.
pub fn thread_there(threads: [Thread; 16], i: u32) -> bool
    ensures { result ≡ thread_there threads i }
{
    thread(threads, i).created == 1
}

pub fn semaphore_there(semaphores: [Semaphore; 8], o: u32) -> bool
    ensures { result ≡ semaphore_there semaphores o }
{
    semaphore(semaphores, o).created == 1
}

pub fn mutex_there(mutexes: [Mutex; 4], o: u32) -> bool
    ensures { result ≡ mutex_there mutexes o }
{
    mutex(mutexes, o).created == 1
}

pub fn flags_there(flags: [Flags; 4], o: u32) -> bool
    ensures { result ≡ flags_there flags o }
{
    flag_object(flags, o).created == 1
}

pub fn names_object(semaphores: [Semaphore; 8], flags: [Flags; 4], kind: u32, object: u32) -> bool
    ensures { result ≡ names_one_of semaphores flags kind object }
{
    match Action::try_from(kind) {
        Ok(Action::Post) => semaphore_there(semaphores, object),
        Ok(Action::SetFlags) => flags_there(flags, object),
        Ok(Action::Nothing) | Err(_) => true,
    }
}
