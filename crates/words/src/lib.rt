// The words of which every effect and every step of a tick is made, in place on a lent image (01, Calls, the rules under the table). Where links
// change, their part of the image is lent on. That an image is whole is a clause and no type: it is lent, and changed in place by any word in turn.
// An id is a number below so many; a type of its own would put `.index` into each contract and a literal into each call.
#![tactic(auto)]

pub mod choosing;
mod moving;
pub mod objects;
pub mod owners;
pub mod priorities;
pub mod standing;
pub mod waking;

pub use moving::{enter_tail, leave, list_of};
