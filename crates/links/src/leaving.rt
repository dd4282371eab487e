// An id off its list: the cells before and behind it are tied together, in both halves. Which cells these are its own links tell; only of the
// first and the last of a list one has to know the list, or search for it.
ghost use Rattle.std.specs.Prelude.{[], map, ◌<◌, get_or};
ghost use Rattle.sequences.specs.Lists.{without, count};
ghost use Rattle.sequences.specs.Links.{Linked, Orderly, lists_in};
ghost use Rattle.links.specs.Cells.{Beside};

use crate::cells;

// i off its list, where it stands between the cells y and z.
fn take_out(links: &mut [u8], n: usize, m: usize, y: usize, z: usize, i: usize)
    requires orderly { Orderly n m links.old }
    requires beside { Beside n i y z (lists_in n m links.old) }
    ensures { Linked n m links.new (map (without i) (lists_in n m links.old)) }
{
    cells::untie(links, 0, y, i);
    cells::untie(links, n + m, z, i);
}

// i off every list. Where i is the first or the last of its list, that list is searched for among the firsts or the lasts.
pub fn leave(links: &mut [u8], n: usize, m: usize, i: usize)
    requires orderly { Orderly n m links.old }
    requires i_lt_n { (i < n) × (n < 256) }
    ensures { Linked n m links.new (map (without i) (lists_in n m links.old)) }
{
    let w = n + m;
    let Some(y) = cells::before(links, n, m, 0, w, i) else {
        return;
    };
    let Some(z) = cells::before(links, n, m, w, 0, i) else {
        return;
    };
    take_out(links, n, m, y, z, i);
}

// i off list j, on which it stands: nothing is searched for.
pub fn leave_list(links: &mut [u8], n: usize, m: usize, j: usize, i: usize)
    requires orderly { Orderly n m links.old }
    requires j_lt_m { (j < m) × (0 < count i (get_or (lists_in n m links.old) j [])) }
    ensures { Linked n m links.new (map (without i) (lists_in n m links.old)) }
{
    let y = cells::cell_of(n + j, links[n + m + i]);
    let z = cells::cell_of(n + j, links[i]);
    take_out(links, n, m, y, z, i);
}
