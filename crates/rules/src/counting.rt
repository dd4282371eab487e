// What counts down (01, One tick, on the next wake-up): the nearer of two counters, where one at 0 doesn't run. Many are compared by their places.
ghost use Rattle.std.specs.Prelude.{◌≡◌};
ghost use Rattle.sequences.specs.Lists.{nearer};
ghost use Rattle.rules.specs.Counting.{place, counter_at};

pub const NEVER: u32 = 4294967295;

// A counter less one. One that doesn't run comes behind all others, so that two are compared by one test.
pub fn place(a: u32) -> u32
    ensures { result ≡ place a }
{
    if a == 0 { NEVER } else { a - 1 }
}

pub fn counter_at(p: u32) -> u32
    ensures { result ≡ counter_at p }
{
    if p == NEVER { 0 } else { p + 1 }
}

// The lesser of two counters, where 0 means that a counter doesn't run.
pub fn nearer(a: u32, b: u32) -> u32
    ensures { result ≡ nearer a b }
{
    if place(a) < place(b) { a } else { b }
}
