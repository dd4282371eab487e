// The numbers of the lists that are no ready lists, as State.antt has them: sleepers, stopped threads, then a wait list for each object. They are
// indices into `waits`, and an object's id is added to its first, so they are no enum.
pub const SLEEP_LIST: usize = 0;

pub const STOPPED_LIST: usize = 1;

pub const SEMAPHORE_LIST: usize = 2;

pub const MUTEX_LIST: usize = 10;

pub const FLAGS_LIST: usize = 14;

pub const LIST_COUNT: usize = 18;
