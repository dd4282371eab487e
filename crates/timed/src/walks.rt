// What a walk over counters has come to: the place of the nearest, and whether anybody may have been moved; either tells
// nothing of the other.
#[derive(Clone, Copy)]
pub struct Walk {
    pub nearest: u32,
    pub moved: bool,
}

// The same of a walk over limits, and from which thread on there are any.
#[derive(Clone, Copy)]
pub struct LimitWalk {
    pub walk: Walk,
    pub from: usize,
}
