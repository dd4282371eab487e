// The table (01, The table). Every field is a raw number: any bytes make a table, and whether it is a sound one is a test of
// its own. The ids of the ready lists stand beside the table, as `[[u8; 16]; 8]`; it holds only how many there are of each.

use crate::lists::LIST_COUNT;

// How the choice of no thread is written, in an image and to users of C alike.
pub const NOBODY: u8 = 255;

#[derive(Clone, Copy, Default, PartialEq)]
pub struct Thread {
    pub created: u8,
    pub base: u8,
    pub current: u8,
    pub quantum: u16,
    pub left: u16,
    pub limit: u32,
    pub result: u8,
    pub mask: u16,
    pub mode: u8,
    pub delivered: u16,
}

#[derive(Clone, Copy, Default)]
pub struct Semaphore {
    pub created: u8,
    pub count: u16,
    pub maximum: u16,
}

// A depth of 0 means unowned, and the owner is then written 0.
#[derive(Clone, Copy, Default)]
pub struct Mutex {
    pub created: u8,
    pub owner: u8,
    pub depth: u8,
}

#[derive(Clone, Copy, Default)]
pub struct Flags {
    pub created: u8,
    pub word: u16,
}

// A timer runs while its left is above 0. `count` is how often it expired.
#[derive(Clone, Copy, Default, PartialEq)]
pub struct Timer {
    pub period: u32,
    pub left: u32,
    pub repeat: u8,
    pub kind: u8,
    pub object: u8,
    pub mask: u16,
    pub count: u32,
}

// The first `length` of `ids`, in order; the places behind them are 0. Memory is fixed, so it is no Vec.
#[derive(Clone, Copy, Default)]
pub struct IdList {
    pub length: u8,
    pub ids: [u8; 16],
}

// `off` is 0 while scheduling is on. `lengths` are those of the ready lists, by priority. `waits` are the sleep list, the
// stopped list, and then the wait lists of the semaphores, the mutexes and the flag objects.
#[derive(Clone, Copy)]
pub struct Table {
    pub clock: u32,
    pub off: u8,
    pub chosen: u8,
    pub threads: [Thread; 16],
    pub semaphores: [Semaphore; 8],
    pub mutexes: [Mutex; 4],
    pub flags: [Flags; 4],
    pub timers: [Timer; 8],
    pub lengths: [u8; 8],
    pub waits: [IdList; LIST_COUNT],
}
