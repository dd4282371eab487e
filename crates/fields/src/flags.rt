// Flag objects in the image: a whole record, or the field that is asked for (01, The table).
ghost use Rattle.std.specs.Prelude.{◌≡◌, ◌<◌};
ghost use Rattle.model.specs.Parts.{flag_object, alter_flags, with_word};
ghost use Rattle.model.specs.Layout.{view};
ghost use Rattle.fields.specs.Fields.{Alters};

use crate::places::{FLAGS, FLAGS_LENGTH, Image};
use model::tables::Flags;
use packed::bytes_of;

const WORD: usize = 1;

pub fn flag_object(image: &Image, o: usize) -> Flags
    requires { o < 4 }
    ensures { result ≡ flag_object o (view image.now) }
{
    let k = FLAGS + FLAGS_LENGTH * o;
    Flags {
        created: image[k],
        word: packed::u16_at(image, k + WORD),
    }
}

pub fn store(image: &mut Image, o: usize, x: Flags)
    requires { o < 4 }
    ensures { Alters image.old (alter_flags o (λ _. x)) image.new }
{
    packed::copy_at(image, FLAGS + FLAGS_LENGTH * o, &bytes_of::flag_object(x));
}

pub fn created(image: &Image, o: usize) -> u8
    requires { o < 4 }
    ensures { result ≡ (flag_object o (view image.now)).created }
{
    image[FLAGS + FLAGS_LENGTH * o]
}

pub fn word(image: &Image, o: usize) -> u16
    requires { o < 4 }
    ensures { result ≡ (flag_object o (view image.now)).word }
{
    packed::u16_at(image, FLAGS + FLAGS_LENGTH * o + WORD)
}

pub fn set_word(image: &mut Image, o: usize, x: u16)
    requires { o < 4 }
    ensures { Alters image.old (alter_flags o (with_word x)) image.new }
{
    packed::put_u16(image, FLAGS + FLAGS_LENGTH * o + WORD, x);
}
