// Semaphores in the image: a whole record, or the field that is asked for (01, The table).
ghost use Rattle.std.specs.Prelude.{◌≡◌, ◌<◌};
ghost use Rattle.model.specs.Parts.{semaphore, alter_semaphore, with_count};
ghost use Rattle.model.specs.Layout.{view};
ghost use Rattle.fields.specs.Fields.{Alters, levels, zero_semaphore};

use crate::places::{Image, SEMAPHORE_LENGTH, SEMAPHORES};
use model::tables::Semaphore;
use packed::bytes_of;

const COUNT: usize = 1;

const MAXIMUM: usize = 3;

pub fn semaphore(image: &Image, o: usize) -> Semaphore
    requires { o < 8 }
    ensures { result ≡ semaphore o (view image.now) }
{
    let k = SEMAPHORES + SEMAPHORE_LENGTH * o;
    Semaphore {
        created: image[k],
        count: packed::u16_at(image, k + COUNT),
        maximum: packed::u16_at(image, k + MAXIMUM),
    }
}

pub fn store(image: &mut Image, o: usize, x: Semaphore)
    requires { o < 8 }
    ensures { Alters image.old (alter_semaphore o (λ _. x)) image.new }
{
    packed::copy_at(
        image,
        SEMAPHORES + SEMAPHORE_LENGTH * o,
        &bytes_of::semaphore(x),
    );
}

pub fn created(image: &Image, o: usize) -> u8
    requires { o < 8 }
    ensures { result ≡ (semaphore o (view image.now)).created }
{
    image[SEMAPHORES + SEMAPHORE_LENGTH * o]
}

pub fn count(image: &Image, o: usize) -> u16
    requires { o < 8 }
    ensures { result ≡ (semaphore o (view image.now)).count }
{
    packed::u16_at(image, SEMAPHORES + SEMAPHORE_LENGTH * o + COUNT)
}

pub fn set_count(image: &mut Image, o: usize, n: u16)
    requires { o < 8 }
    ensures { Alters image.old (alter_semaphore o (with_count n)) image.new }
{
    packed::put_u16(image, SEMAPHORES + SEMAPHORE_LENGTH * o + COUNT, n);
}

pub fn maximum(image: &Image, o: usize) -> u16
    requires { o < 8 }
    ensures { result ≡ (semaphore o (view image.now)).maximum }
{
    packed::u16_at(image, SEMAPHORES + SEMAPHORE_LENGTH * o + MAXIMUM)
}

// Count and maximum as one number, as they stand side by side.
pub fn levels(image: &Image, o: usize) -> u32
    requires { o < 8 }
    ensures { result ≡ levels (semaphore o (view image.now)) }
{
    packed::u32_at(image, SEMAPHORES + SEMAPHORE_LENGTH * o + COUNT)
}

// All five bytes 0, four of them read at once.
pub fn is_blank(image: &Image, o: usize) -> bool
    requires { o < 8 }
    ensures { result ≡ zero_semaphore (semaphore o (view image.now)) }
{
    let k = SEMAPHORES + SEMAPHORE_LENGTH * o;
    (packed::u32_at(image, k) == 0) & (image[k + (MAXIMUM + 1)] == 0)
}
