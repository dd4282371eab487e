// The effects of the calls on threads, on timers and on scheduling, in place on a lent image: a file per family. Those on objects that threads
// wait for stand in `serving`.
// The numbers of an accepted call fit their fields, as what a call requires tells, so `as` narrows them and no conversion can fail.
#![tactic(auto)]

pub mod scheduling;
pub mod threads;
pub mod timers;
