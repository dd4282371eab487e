// The table is its image: each record and field read and written where it stands in the lent bytes. What a field means, and where it stands, is
// said in Layout.antt of the model; `view` reads it. The links have a crate of their own, which is lent their part.
// Each field has functions of its own: one for all would be handed its place, width and meaning, and its contract would say no more than those.
#![tactic(auto)]

pub mod flags;
pub mod head;
pub mod mutexes;
pub mod places;
pub mod semaphores;
pub mod threads;
pub mod timers;
