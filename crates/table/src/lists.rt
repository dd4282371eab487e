// One stored list of ids: who stands on it, and the list with one more or one less. A table that isn't sound has lists of any bytes, and
// soundness speaks of those too: so that a list is in order is asked here, and is no invariant of the type, which belongs to model.
ghost use Rattle.std.specs.Prelude.{◌≡◌, ◌<◌, ◌≤◌, length};
ghost use Rattle.sequences.specs.Lists.{snoc, insert_at, without, among, count};
ghost use Rattle.rows.specs.Row.{Row};
ghost use Rattle.model.specs.Before.{ids_of};
ghost use Rattle.table.specs.Orderly.{Listed};

use model::tables::IdList;

pub fn holds_id(l: IdList, i: u8) -> bool
    requires { Row 16 l.ids l.length }
    ensures { result ≡ among i (ids_of l) }
{
    let ids = l.ids;
    let n = l.length as usize;
    let k = rows::row::find(ids, n, i);
    k < n
}

// i behind all others.
pub fn with_tail(l: IdList, i: u8) -> IdList
    requires row { Row 16 l.ids l.length }
    requires length_bound { l.length < 16 }
    ensures { Listed result (snoc i (ids_of l)) }
{
    let ids = l.ids;
    let n = l.length as usize;
    let grown = rows::row::push(ids, n, i);
    IdList {
        length: l.length + 1,
        ids: grown,
    }
}

// i at place k.
pub fn with_at(l: IdList, k: usize, i: u8) -> IdList
    requires row { Row 16 l.ids l.length }
    requires length_bound { (l.length < 16) × (k ≤ l.length) }
    ensures { Listed result (insert_at k i (ids_of l)) }
{
    let ids = l.ids;
    let n = l.length as usize;
    let grown = rows::row::insert(ids, n, k, i);
    IdList {
        length: l.length + 1,
        ids: grown,
    }
}

// i taken out, where it stands once at most.
pub fn without(l: IdList, i: u8) -> IdList
    requires row { Row 16 l.ids l.length }
    requires l_bound { count i (ids_of l) ≤ 1 }
    ensures { Listed result (without i (ids_of l)) }
{
    let ids = l.ids;
    let n = l.length as usize;
    let k = rows::row::find(ids, n, i);
    if k < n {
        let shrunk = rows::row::remove(ids, n, k);
        IdList {
            length: l.length - 1,
            ids: shrunk,
        }
    } else {
        l
    }
}
