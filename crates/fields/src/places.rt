// Where the parts of an image lie and how long their records are, as Layout.antt of the model has it; docs/IMAGE.md draws it. Each part starts
// where the one before it ends.

use model::lists::LIST_COUNT;

pub const THREADS: usize = 6;

pub const THREAD_LENGTH: usize = 17;

pub const THREAD_COUNT: usize = 16;

// The current priority of thread 0; that of another is as many records further.
pub const CURRENTS: usize = THREADS + 2;

pub const SEMAPHORES: usize = THREADS + THREAD_LENGTH * THREAD_COUNT;

pub const SEMAPHORE_LENGTH: usize = 5;

pub const SEMAPHORE_COUNT: usize = 8;

pub const MUTEXES: usize = SEMAPHORES + SEMAPHORE_LENGTH * SEMAPHORE_COUNT;

pub const MUTEX_LENGTH: usize = 3;

pub const MUTEX_COUNT: usize = 4;

pub const FLAGS: usize = MUTEXES + MUTEX_LENGTH * MUTEX_COUNT;

pub const FLAGS_LENGTH: usize = 3;

pub const FLAGS_COUNT: usize = 4;

pub const TIMERS: usize = FLAGS + FLAGS_LENGTH * FLAGS_COUNT;

pub const TIMER_LENGTH: usize = 17;

pub const TIMER_COUNT: usize = 8;

// The links: next of each thread, first of each list, previous of each thread, last of each list. The ready lists come first, then the others.
pub const LINKS: usize = TIMERS + TIMER_LENGTH * TIMER_COUNT;

pub const PRIORITY_COUNT: usize = 8;

pub const LINKED_LISTS: usize = PRIORITY_COUNT + LIST_COUNT;

pub const FIRSTS: usize = LINKS + THREAD_COUNT;

pub const PREVIOUS: usize = FIRSTS + LINKED_LISTS;

pub const IMAGE_LENGTH: usize = LINKS + 2 * (THREAD_COUNT + LINKED_LISTS);

// The bytes of an image. That there are so many is known wherever one is lent.
pub type Image = [u8; IMAGE_LENGTH];
