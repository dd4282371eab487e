// An id that stands on no list put on one: it is tied in between two cells, in both halves. Behind which cell it goes is known by the caller, or
// told by the last link, or walked to.
ghost use Rattle.std.specs.Prelude.{[], ℕ, ◌≤◌, length, get_or};
ghost use Rattle.sequences.specs.Lists.{alter, snoc, insert_at};
ghost use Rattle.sequences.specs.Links.{Linked, Orderly, lists_in};
ghost use Rattle.links.specs.Walks.{Behind, Enters};

use crate::{cells, walking};

// i on list j behind cell y. How many of the list's ids lead up to y, the caller knows and the code doesn't ask.
pub fn enter_behind(links: &mut [u8], n: usize, m: usize, j: usize, y: usize, i: usize)
    requires orderly { Orderly n m links.old }
    requires enters { Enters n m i j (lists_in n m links.old) }
    requires by_index { (k : ℕ) × Behind n j (get_or (lists_in n m links.old) j []) k y }
    ensures { (k : ℕ) → Behind n j (get_or (lists_in n m links.old) j []) k y
        → Linked n m links.new (alter j (insert_at k i) (lists_in n m links.old)) }
{
    let w = n + m;
    let z = cells::cell_of(n + j, links[y]);
    cells::tie(links, 0, y, i);
    cells::tie(links, w, z, i);
}

// i on list j behind all others.
pub fn enter_tail(links: &mut [u8], n: usize, m: usize, j: usize, i: usize)
    requires orderly { Orderly n m links.old }
    requires enters { Enters n m i j (lists_in n m links.old) }
    ensures { Linked n m links.new (alter j (snoc i) (lists_in n m links.old)) }
{
    let y = cells::cell_of(n + j, links[n + m + (n + j)]);
    enter_behind(links, n, m, j, y, i);
}

// i on list j at place k.
pub fn enter_at(links: &mut [u8], n: usize, m: usize, j: usize, k: usize, i: usize)
    requires orderly { Orderly n m links.old }
    requires enters { Enters n m i j (lists_in n m links.old) }
    requires k_in_bounds { k ≤ length (get_or (lists_in n m links.old) j []) }
    ensures { Linked n m links.new (alter j (insert_at k i) (lists_in n m links.old)) }
{
    let y = walking::cell_at(links, n, m, j, k);
    enter_behind(links, n, m, j, y, i);
}
