// Who owns a mutex.
ghost use Rattle.std.specs.Prelude.{◌≡◌};
ghost use Rattle.table.specs.Owners.{owns_one_of};

use model::tables::Mutex;

pub fn owns_one_of(mutexes: [Mutex; 4], i: u8) -> bool
    ensures { result ≡ owns_one_of mutexes i }
{
    mutexes.iter().any(|x| rules::owners::owns(*x, i))
}
