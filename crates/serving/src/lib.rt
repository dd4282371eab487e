// The effects of the calls on what threads wait for, in place on a lent image: a file per family. Timers post and set flags by the same words.
// The numbers of an accepted call fit their fields, as what a call requires tells, so `as` narrows them and no conversion can fail.
#![tactic(auto)]

pub mod flags;
pub mod mutexes;
pub mod semaphores;
