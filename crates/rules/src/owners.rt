// Who owns a mutex.
ghost use Rattle.std.specs.Prelude.{◌≡◌, not, ◌&&◌, eqb, ltb};

use model::tables::Mutex;

pub fn owns(x: Mutex, i: u8) -> bool
    ensures { result ≡ (ltb 0 x.depth && eqb x.owner i) }
{
    (0 < x.depth) & (x.owner == i)
}

// Somebody else's: i would have to wait for it.
pub fn is_others(x: Mutex, i: u8) -> bool
    ensures { result ≡ (ltb 0 x.depth && not (eqb x.owner i)) }
{
    (0 < x.depth) & (x.owner != i)
}
