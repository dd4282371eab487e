// Lists of ids by links, in place on lent bytes, for any number n of ids up to 255 and any number m of lists: n next links and m first links,
// then n previous links and m last links. A link is an id plus one, 0 for none. A cell is an id's, 0 to n - 1, or the one before list j, n + j.
// Each contract speaks of the lists that the links lead through. The bytes are a caller's, lent for one call: a struct that keeps that they are
// orderly would be made anew for each.
#![tactic(auto)]

mod cells;
pub mod entering;
pub mod leaving;
pub mod noting;
pub mod walking;
