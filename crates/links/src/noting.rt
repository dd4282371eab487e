// Links that nothing is known of, followed list by list: each id is noted with the list that it is read on, and the walk ends at the first
// fault. What it leaves to be asked is that who stands on no list has no links.
ghost use Rattle.std.specs.Prelude.{◌≡◌, ◌+◌, ◌<◌, ◌≤◌, length, replicate};
ghost use Rattle.sequences.specs.Bytes.{part};
ghost use Rattle.sequences.specs.Links.{Orderly};
ghost use Rattle.links.specs.Noted.{leads_anew, Through, Noted, Tells};

use crate::cells;

// Nobody, or an id that isn't noted yet.
fn is_new(n: usize, link: u8, marks: &[u8]) -> bool
    requires { length marks.now ≡ n }
    ensures { result ≡ leads_anew n marks.now link }
{
    if link == 0 {
        return true;
    }
    let x = cells::id_of(link);
    x < n && marks[x] == 0
}

// List j, of links that stand from a place on in the bytes: who is on it is noted as j + 1. Only the first can have been noted before: another
// has the one before it as its previous, which nobody else has. The steps are counted by hand, so that it ends: a `for` over as many was unrolled and
// no longer inlined, which made the soundness test a seventh longer.
fn follow(bytes: &[u8], at: usize, n: usize, m: usize, j: usize, marks: &mut [u8]) -> bool
    requires m_in_bounds { (at + (n + m + (n + m)) ≤ length bytes.now) × (j < m) × (m < 256) }
    requires through { Through n m j (part at (n + m + (n + m)) bytes.now) marks.old }
    ensures { Tells result (Through n m (j + 1) (part at (n + m + (n + m)) bytes.now) marks.new)
        (Orderly n m (part at (n + m + (n + m)) bytes.now)) }
{
    let w = n + m;
    let mut came: u8 = 0;
    let mut link = bytes[at + n + j];
    if !is_new(n, link, marks) {
        return false;
    }
    let mut k: usize = 0;
    while link != 0 {
        if k == n {
            return false;
        }
        k += 1;
        let x = cells::id_of(link);
        if n <= x {
            return false;
        }
        marks[x] = (j + 1) as u8;
        if bytes[at + w + x] != came {
            return false;
        }
        came = link;
        link = bytes[at + x];
    }
    bytes[at + w + n + j] == came
}

// Every list.
pub fn note(bytes: &[u8], at: usize, n: usize, m: usize, marks: &mut [u8]) -> bool
    requires { (at + (n + m + (n + m)) ≤ length bytes.now) × (m < 256) × (marks.old ≡ replicate n 0) }
    ensures { Tells result (Noted n m (part at (n + m + (n + m)) bytes.now) marks.new)
        (Orderly n m (part at (n + m + (n + m)) bytes.now)) }
{
    for j in 0..m {
        if !follow(bytes, at, n, m, j, marks) {
            return false;
        }
    }
    true
}
