// Cells of one half of the links, which starts at `at`: the cell that a link leads to, an id tied in behind a cell or untied from there, and
// the cell whose link leads to an id.
ghost use Rattle.std.specs.Prelude.{◌≡◌, ◌+◌, ◌-◌, ◌<◌, ◌≤◌, length, get_or, eqb, position, slice_range};
ghost use Rattle.links.specs.Cells.{tied, untied, cell_of, before, Below};

// The id that a link leads to.
pub fn id_of(link: u8) -> usize
    requires { 0 < link }
    ensures { result ≡ link - 1 }
{
    usize::from(link) - 1
}

// The cell that a link leads to, or c.
pub fn cell_of(c: usize, link: u8) -> usize
    ensures { result ≡ cell_of c link }
{
    if link == 0 { c } else { id_of(link) }
}

pub fn tie(links: &mut [u8], at: usize, y: usize, i: usize)
    requires { (at + y < length links.old) × (at + i < length links.old) × (i < 255) }
    ensures { links.new ≡ tied at y i links.old }
{
    let link = links[at + y];
    links[at + i] = link;
    links[at + y] = (i + 1) as u8;
}

pub fn untie(links: &mut [u8], at: usize, y: usize, i: usize)
    requires { (at + y < length links.old) × (at + i < length links.old) }
    ensures { links.new ≡ untied at y i links.old }
{
    let link = links[at + i];
    links[at + y] = link;
    links[at + i] = 0;
}

// The first of the m lists whose links stand from a place on that has this link.
pub fn first_with(links: &[u8], m: usize, from: usize, link: u8) -> Option<usize>
    requires { from + m ≤ length links.now }
    ensures { result ≡ position (λ x. eqb x link) (slice_range links.now from (from + m)) }
{
    links[from..from + m].iter().position(|x| *x == link)
}

// The cell of the half at `here` whose link leads to i. The other half tells it, unless i is the first there: then it is searched for.
pub fn before(
    links: &[u8],
    n: usize,
    m: usize,
    here: usize,
    there: usize,
    i: usize,
) -> Option<usize>
    requires reads { (here + n + m ≤ length links.now) × (there + i < length links.now) × (i < 255) }
    requires to_id { get_or links.now (there + i) 0 ≤ n }
    ensures { Below (n + m) (before n m here there i links.now) result }
{
    let link = links[there + i];
    if link != 0 {
        return Some(id_of(link));
    }
    let j = first_with(links, m, here + n, (i + 1) as u8)?;
    Some(n + j)
}
