// What an id names, and whether that is there. An id or a number may be any of 32 bits.
ghost use Rattle.std.specs.Prelude.{◌≡◌, ◌<◌, ◌≤◌};
ghost use Rattle.model.specs.Parts.{semaphore, mutex, flag_object};
ghost use Rattle.model.specs.Ranges.{has_thread, has_semaphore, has_mutex, has_flags, names_object};
ghost use Rattle.model.specs.Layout.{view};
ghost use Rattle.fields.specs.Fields.{Sized};

use fields::places::{FLAGS_COUNT, Image, MUTEX_COUNT, SEMAPHORE_COUNT, THREAD_COUNT};
use fields::{flags, mutexes, semaphores, threads};
use model::actions::Action;
use model::tables::Mutex;

// What is read of the one that an id names, or what holds where it names none.
fn of_named<T: Copy, F: Fn(usize) -> T>(count: usize, id: u32, read: F, otherwise: T) -> T
    requires { id < count → F.pre read id }
    ensures named { id < count → F.post read id result }
    ensures unnamed { count ≤ id → result ≡ otherwise }
{
    let id = id as usize;
    if id < count { read(id) } else { otherwise }
}

pub fn has_thread(image: &Image, i: u32) -> bool
    ensures { result ≡ has_thread i (view image.now) }
{
    of_named(THREAD_COUNT, i, |i| threads::created(image, i), 0) == 1
}

pub fn has_semaphore(image: &Image, o: u32) -> bool
    ensures { result ≡ has_semaphore o (view image.now) }
{
    of_named(SEMAPHORE_COUNT, o, |o| semaphores::created(image, o), 0) == 1
}

pub fn has_mutex(image: &Image, o: u32) -> bool
    ensures { result ≡ has_mutex o (view image.now) }
{
    of_named(MUTEX_COUNT, o, |o| mutexes::created(image, o), 0) == 1
}

pub fn has_flags(image: &Image, o: u32) -> bool
    ensures { result ≡ has_flags o (view image.now) }
{
    of_named(FLAGS_COUNT, o, |o| flags::created(image, o), 0) == 1
}

// Whether what an action of this kind names is there.
pub fn names_object(image: &Image, kind: u32, object: u32) -> bool
    ensures { result ≡ names_object kind object (view image.now) }
{
    match Action::try_from(kind) {
        Ok(Action::Post) => has_semaphore(image, object),
        Ok(Action::SetFlags) => has_flags(image, object),
        Ok(Action::Nothing) | Err(_) => true,
    }
}

// ---- of what isn't there every number is 0

pub fn mutex(image: &Image, o: u32) -> Mutex
    ensures { result ≡ mutex o (view image.now) }
{
    of_named(
        MUTEX_COUNT,
        o,
        |o| mutexes::mutex(image, o),
        Mutex::default(),
    )
}

pub fn count(image: &Image, o: u32) -> u16
    ensures { result ≡ (semaphore o (view image.now)).count }
{
    of_named(SEMAPHORE_COUNT, o, |o| semaphores::count(image, o), 0)
}

pub fn word(image: &Image, o: u32) -> u16
    ensures { result ≡ (flag_object o (view image.now)).word }
{
    of_named(FLAGS_COUNT, o, |o| flags::word(image, o), 0)
}
