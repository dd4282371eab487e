// Who owns a mutex.
ghost use Rattle.std.specs.Prelude.{◌≡◌, ◌<◌};
ghost use Rattle.model.specs.Words.{owns, owns_any};
ghost use Rattle.model.specs.Layout.{view};
ghost use Rattle.fields.specs.Fields.{Sized, Named};

use fields::mutexes;
use fields::places::{Image, MUTEX_COUNT};

pub fn owns(image: &Image, o: usize, i: u8) -> bool
    requires { o < 4 }
    ensures { result ≡ owns o i (view image.now) }
{
    let x = mutexes::mutex(image, o);
    rules::owners::owns(x, i)
}

pub fn owns_any(image: &Image, i: u8) -> bool
    ensures { result ≡ owns_any i (view image.now) }
{
    (0..MUTEX_COUNT).any(|o| owns(image, o, i))
}
