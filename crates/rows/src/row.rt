// One row: its first n places are a list of ids. Rows go in and come out whole.
ghost use Rattle.std.specs.Prelude.{◌≡◌, ◌+◌, ◌-◌, ◌<◌, ◌≤◌, eqb, take};
ghost use Rattle.sequences.specs.Lists.{snoc, insert_at, remove_at, first_at};
ghost use Rattle.rows.specs.Row.{Row, Held};

// x behind all others.
pub fn push(row: [u8; 16], n: usize, x: u8) -> [u8; 16]
    requires row { Row 16 row n }
    requires n_bound { n < 16 }
    ensures { Held 16 result (n + 1) (snoc x (take n row)) }
{
    let mut grown = row;
    grown[n] = x;
    grown
}

// x at place k, those from there on behind it.
pub fn insert(row: [u8; 16], n: usize, k: usize, x: u8) -> [u8; 16]
    requires row { Row 16 row n }
    requires n_bound { (n < 16) × (k ≤ n) }
    ensures { Held 16 result (n + 1) (insert_at k x (take n row)) }
{
    let mut grown = row;
    grown.copy_within(k..n, k + 1);
    grown[k] = x;
    grown
}

// The id at place k taken out.
pub fn remove(row: [u8; 16], n: usize, k: usize) -> [u8; 16]
    requires row { Row 16 row n }
    requires k_lt_n { k < n }
    ensures { Held 16 result (n - 1) (remove_at k (take n row)) }
{
    let mut shrunk = row;
    shrunk.copy_within(k + 1..n, k);
    shrunk[n - 1] = 0;
    shrunk
}

// The place of the first x, or n.
pub fn find(row: [u8; 16], n: usize, x: u8) -> usize
    requires { n ≤ 16 }
    ensures { result ≡ first_at (λ y. eqb y x) (take n row) }
{
    row[..n].iter().position(|y| *y == x).unwrap_or(n)
}
