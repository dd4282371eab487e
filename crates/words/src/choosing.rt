// The choice, and what choosing writes (01, The table, on the chosen thread; 01, Calls, on choosing).
ghost use Rattle.std.specs.Prelude.{◌≡◌};
ghost use Rattle.model.specs.Parts.{alter_thread, refilled};
ghost use Rattle.model.specs.Words.{choice, choose};
ghost use Rattle.model.specs.Layout.{view};
ghost use Rattle.fields.specs.Fields.{Sized, Alters};

use fields::places::{FIRSTS, Image, PRIORITY_COUNT, THREAD_COUNT};
use fields::{head, threads};
use model::tables::NOBODY;

// From this priority on the ready lists are looked at together.
const UPPER_HALF: usize = 4;

// The head of the highest ready list that isn't empty, or nobody, whatever the links are otherwise. The four highest lists are looked at together
// first, and passed over where all are empty.
pub fn choice(image: &Image) -> u8
    ensures { result ≡ choice (view image.now) }
{
    let mut above: usize = PRIORITY_COUNT;
    if packed::u32_at(image, FIRSTS + UPPER_HALF) == 0 {
        above = UPPER_HALF;
    }
    for p in (0..above).rev() {
        let link = image[FIRSTS + p];
        if link != 0 {
            return link - 1;
        }
    }
    NOBODY
}

// All of its quantum again; where that is nobody, nobody has.
fn refill(image: &mut Image, c: u8)
    ensures { Alters image.old (alter_thread c refilled) image.new }
{
    let i = c as usize;
    if i < THREAD_COUNT {
        let all = threads::quantum(image, i);
        threads::set_left(image, i, all);
    }
}

// Who comes to be chosen has all of its quantum again.
pub fn choose(image: &mut Image)
    ensures { Alters image.old choose image.new }
{
    let c = choice(image);
    if (head::off(image) == 0) & (c != head::chosen(image)) {
        refill(image, c);
        head::set_chosen(image, c);
    }
}
