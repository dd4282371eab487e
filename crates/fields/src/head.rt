// The head of the image: clock, mark of scheduling, chosen thread (01, The table).
ghost use Rattle.std.specs.Prelude.{◌≡◌};
ghost use Rattle.model.specs.Parts.{with_clock, with_off, with_chosen};
ghost use Rattle.model.specs.Layout.{view};
ghost use Rattle.fields.specs.Fields.{Alters};

use crate::places::Image;

const CLOCK: usize = 0;

const OFF: usize = 4;

pub const CHOSEN: usize = 5;

pub fn clock(image: &Image) -> u32
    ensures { result ≡ (view image.now).clock }
{
    packed::u32_at(image, CLOCK)
}

pub fn set_clock(image: &mut Image, x: u32)
    ensures { Alters image.old (with_clock x) image.new }
{
    packed::put_u32(image, CLOCK, x);
}

// 0 while scheduling is on.
pub fn off(image: &Image) -> u8
    ensures { result ≡ (view image.now).off }
{
    image[OFF]
}

pub fn set_off(image: &mut Image, x: u8)
    ensures { Alters image.old (with_off x) image.new }
{
    image[OFF] = x;
}

pub fn chosen(image: &Image) -> u8
    ensures { result ≡ (view image.now).chosen }
{
    image[CHOSEN]
}

pub fn set_chosen(image: &mut Image, x: u8)
    ensures { Alters image.old (with_chosen x) image.new }
{
    image[CHOSEN] = x;
}
