// Lists read by their links: the first, whether there are two, a walk along a list to a place, to a lower value or to the end, and the walk
// back from an id that tells its list. A walk ends at a link 0 and so is a `while`; the count that two of them keep beside it is their answer,
// and a `for` over that would end in two places.
ghost use Rattle.std.specs.Prelude.{◌≡◌, [], ℕ, ◌+◌, ◌*◌, ◌<◌, ◌≤◌, ltb, leb, length, get_or};
ghost use Rattle.sequences.specs.Lists.{first_at, among};
ghost use Rattle.sequences.specs.Links.{Orderly, lists_in, head_link};
ghost use Rattle.links.specs.Walks.{Behind, Ranked, ReadOut};

use crate::cells;

// The link to the first of list j.
pub fn first(links: &[u8], n: usize, m: usize, j: usize) -> u8
    requires orderly { Orderly n m links.now }
    requires j_lt_m { j < m }
    ensures { result ≡ head_link (get_or (lists_in n m links.now) j []) }
{
    links[n + j]
}

// Whether two or more stand on list j: then its first and its last differ.
pub fn is_shared(links: &[u8], n: usize, m: usize, j: usize) -> bool
    requires orderly { Orderly n m links.now }
    requires j_lt_m { j < m }
    ensures { result ≡ leb 2 (length (get_or (lists_in n m links.now) j [])) }
{
    links[n + j] != links[n + m + (n + j)]
}

// The cell of list j that k of its ids lead up to.
pub fn cell_at(links: &[u8], n: usize, m: usize, j: usize, k: usize) -> usize
    requires orderly { Orderly n m links.now }
    requires j_lt_m { (j < m) × (k ≤ length (get_or (lists_in n m links.now) j [])) }
    ensures { Behind n j (get_or (lists_in n m links.now) j []) k result }
{
    let mut y = n + j;
    for _ in 0..k {
        y = cells::id_of(links[y]);
    }
    y
}

// A place on a list, and the cell that so many ids lead up to.
#[derive(Clone, Copy)]
pub struct Spot {
    pub place: usize,
    pub cell: usize,
}

// Where the first of list j stands whose value is lower than p; at the end where none is. The value of id x is values[from + stride * x].
pub fn rank(
    links: &[u8],
    n: usize,
    m: usize,
    j: usize,
    values: &[u8],
    from: usize,
    stride: usize,
    p: u8,
) -> Spot
    requires orderly { Orderly n m links.now }
    requires j_lt_m { j < m }
    requires by_index { (x : ℕ) → x < n → from + stride * x < length values.now }
    ensures { Ranked n j (get_or (lists_in n m links.now) j [])
        (λ x. ltb (get_or values.now (from + stride * x) 0) p) result.place result.cell }
{
    let mut y = n + j;
    let mut k: usize = 0;
    while links[y] != 0 {
        let x = cells::id_of(links[y]);
        if values[from + stride * x] < p {
            return Spot { place: k, cell: y };
        }
        y = x;
        k += 1;
    }
    Spot { place: k, cell: y }
}

// The ids of list j in order, from the first place of a row on, and how many there are.
pub fn read(links: &[u8], n: usize, m: usize, j: usize, out: &mut [u8]) -> usize
    requires orderly { Orderly n m links.now }
    requires j_lt_m { (j < m) × (length out.old ≡ n) × (n < 256) }
    ensures { ReadOut (get_or (lists_in n m links.now) j []) result out.old out.new }
{
    let mut y = n + j;
    let mut k: usize = 0;
    while links[y] != 0 {
        y = cells::id_of(links[y]);
        out[k] = y as u8;
        k += 1;
    }
    k
}

// The list that i stands on, or m: the walk back ends at its first, which the search among the firsts finds.
pub fn list_of(links: &[u8], n: usize, m: usize, i: usize) -> usize
    requires orderly { Orderly n m links.now }
    requires i_lt_n { (i < n) × (n < 256) }
    ensures { result ≡ first_at (among i) (lists_in n m links.now) }
{
    let w = n + m;
    let mut x = i;
    while links[w + x] != 0 {
        x = cells::id_of(links[w + x]);
    }
    cells::first_with(links, m, n, (x + 1) as u8).unwrap_or(m)
}
