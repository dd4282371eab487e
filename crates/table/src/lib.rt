// The words of which every call and every tick is made (01, Calls, the rules under the table), on the table and its ready rows. Each is
// the model's word of the same name, and leaves the table orderly. The rows stand beside the table in every parameter list: 01 names that form, and
// what is said to users (`call_table`, `sound_table`) speaks of the pair.
#![tactic(auto)]

pub mod choosing;
pub mod entering;
pub mod fresh;
pub mod leaving;
pub mod lists;
pub mod objects;
pub mod owners;
pub mod priorities;
pub mod standing;
pub mod storing;
pub mod threads;
pub mod waking;
