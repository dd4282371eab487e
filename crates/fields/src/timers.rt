// Timers in the image: a whole record, or the field that is asked for (01, The table).
ghost use Rattle.std.specs.Prelude.{◌≡◌, ◌<◌};
ghost use Rattle.model.specs.Parts.{timer, alter_timer, with_time};
ghost use Rattle.model.specs.Sound.{zero_timer};
ghost use Rattle.model.specs.Layout.{view};
ghost use Rattle.fields.specs.Fields.{Alters, action};

use crate::places::{Image, TIMER_LENGTH, TIMERS};
use model::tables::Timer;
use packed::bytes_of;

const LEFT: usize = 4;

const REPEAT: usize = 8;

const KIND: usize = 9;

const OBJECT: usize = 10;

const MASK: usize = 11;

const COUNT: usize = 13;

pub fn timer(image: &Image, o: usize) -> Timer
    requires { o < 8 }
    ensures { result ≡ timer o (view image.now) }
{
    let k = TIMERS + TIMER_LENGTH * o;
    Timer {
        period: packed::u32_at(image, k),
        left: packed::u32_at(image, k + LEFT),
        repeat: image[k + REPEAT],
        kind: image[k + KIND],
        object: image[k + OBJECT],
        mask: packed::u16_at(image, k + MASK),
        count: packed::u32_at(image, k + COUNT),
    }
}

pub fn store(image: &mut Image, o: usize, t: Timer)
    requires { o < 8 }
    ensures { Alters image.old (alter_timer o (λ _. t)) image.new }
{
    packed::copy_at(image, TIMERS + TIMER_LENGTH * o, &bytes_of::timer(t));
}

// All 17 bytes 0, eight of them read at once, those of period and left last: who asks has read them already.
pub fn is_blank(image: &Image, o: usize) -> bool
    requires { o < 8 }
    ensures { result ≡ zero_timer (timer o (view image.now)) }
{
    let k = TIMERS + TIMER_LENGTH * o;
    (packed::u64_at(image, k + REPEAT) == 0)
        & (packed::u64_at(image, k) == 0)
        & (image[k + (COUNT + 3)] == 0)
}

pub fn period(image: &Image, o: usize) -> u32
    requires { o < 8 }
    ensures { result ≡ (timer o (view image.now)).period }
{
    packed::u32_at(image, TIMERS + TIMER_LENGTH * o)
}

pub fn left(image: &Image, o: usize) -> u32
    requires { o < 8 }
    ensures { result ≡ (timer o (view image.now)).left }
{
    packed::u32_at(image, TIMERS + TIMER_LENGTH * o + LEFT)
}

pub fn set_left(image: &mut Image, o: usize, x: u32)
    requires { o < 8 }
    ensures { Alters image.old (alter_timer o (λ t. with_time x t.count t)) image.new }
{
    packed::put_u32(image, TIMERS + TIMER_LENGTH * o + LEFT, x);
}

// How often it expired.
pub fn count(image: &Image, o: usize) -> u32
    requires { o < 8 }
    ensures { result ≡ (timer o (view image.now)).count }
{
    packed::u32_at(image, TIMERS + TIMER_LENGTH * o + COUNT)
}

// Repeat, kind, object and mask as one number, as they stand side by side. Three bytes of left are read with them, so that it is one reading.
pub fn action(image: &Image, o: usize) -> u64
    requires { o < 8 }
    ensures { result ≡ action (timer o (view image.now)) }
{
    packed::u64_at(image, TIMERS + TIMER_LENGTH * o + (LEFT + 1)) / 16777216
}

// What an expiry writes: what is left again, and how often it expired.
pub fn set_time(image: &mut Image, o: usize, left: u32, count: u32)
    requires { o < 8 }
    ensures { Alters image.old (alter_timer o (with_time left count)) image.new }
{
    set_left(image, o, left);
    packed::put_u32(image, TIMERS + TIMER_LENGTH * o + COUNT, count);
}
