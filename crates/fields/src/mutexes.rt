// Mutexes in the image: a whole record, or the field that is asked for (01, The table).
ghost use Rattle.std.specs.Prelude.{◌≡◌, ◌<◌};
ghost use Rattle.model.specs.Parts.{mutex, alter_mutex, with_owner};
ghost use Rattle.model.specs.Layout.{view};
ghost use Rattle.fields.specs.Fields.{Alters, ownership};

use crate::places::{Image, MUTEX_LENGTH, MUTEXES};
use model::tables::Mutex;
use packed::bytes_of;

const OWNER: usize = 1;

const DEPTH: usize = 2;

pub fn mutex(image: &Image, o: usize) -> Mutex
    requires { o < 4 }
    ensures { result ≡ mutex o (view image.now) }
{
    let k = MUTEXES + MUTEX_LENGTH * o;
    Mutex {
        created: image[k],
        owner: image[k + OWNER],
        depth: image[k + DEPTH],
    }
}

pub fn store(image: &mut Image, o: usize, x: Mutex)
    requires { o < 4 }
    ensures { Alters image.old (alter_mutex o (λ _. x)) image.new }
{
    packed::copy_at(image, MUTEXES + MUTEX_LENGTH * o, &bytes_of::mutex(x));
}

pub fn created(image: &Image, o: usize) -> u8
    requires { o < 4 }
    ensures { result ≡ (mutex o (view image.now)).created }
{
    image[MUTEXES + MUTEX_LENGTH * o]
}

pub fn owner(image: &Image, o: usize) -> u8
    requires { o < 4 }
    ensures { result ≡ (mutex o (view image.now)).owner }
{
    image[MUTEXES + MUTEX_LENGTH * o + OWNER]
}

pub fn depth(image: &Image, o: usize) -> u8
    requires { o < 4 }
    ensures { result ≡ (mutex o (view image.now)).depth }
{
    image[MUTEXES + MUTEX_LENGTH * o + DEPTH]
}

// All three fields as one number, as they stand side by side. A byte behind them is read with them, so that it is one reading.
pub fn ownership(image: &Image, o: usize) -> u32
    requires { o < 4 }
    ensures { result ≡ ownership (mutex o (view image.now)) }
{
    packed::u32_at(image, MUTEXES + MUTEX_LENGTH * o) % 16777216
}

// Who owns it, and how deep; 0 and 0 for nobody.
pub fn set_owner(image: &mut Image, o: usize, owner: u8, depth: u8)
    requires { o < 4 }
    ensures { Alters image.old (alter_mutex o (with_owner owner depth)) image.new }
{
    image[MUTEXES + MUTEX_LENGTH * o + OWNER] = owner;
    image[MUTEXES + MUTEX_LENGTH * o + DEPTH] = depth;
}
