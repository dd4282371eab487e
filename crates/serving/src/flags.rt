// The effects of calls 15 to 18; timers set flags by the same word.
ghost use Rattle.std.specs.Prelude.{◌<◌, ◌≤◌};
ghost use Rattle.model.specs.Calls.{create_flags, wait, set, clear};
ghost use Rattle.model.specs.Effects.{create_flags_effect, wait_effect, change_word, set_flags, set_effect, clear_effect};
ghost use Rattle.model.specs.Layout.{view};
ghost use Rattle.theorems.specs.Allowed.{Allowed};
ghost use Rattle.theorems.specs.Meeting.{wake_met};
ghost use Rattle.words.specs.Images.{Whole, On, Does};

use fields::places::{Image, LINKS, PRIORITY_COUNT};
use fields::{flags, head, threads};
use model::lists::FLAGS_LIST;
use model::requests::Request;
use model::tables::Flags;
use rules::conditions;
use words::{standing, waking};

// Call 15.
pub fn create_flags(image: &mut Image, q: Request)
    requires whole { Whole image.old }
    requires allowed { Allowed create_flags q (view image.old) }
    ensures { Does image.old (create_flags_effect q) image.new }
{
    let x = Flags {
        created: 1,
        word: q.a as u16,
    };
    flags::store(image, q.id as usize, x);
}

// Call 16: where the condition holds the whole word is delivered, else the running thread waits.
pub fn wait(image: &mut Image, q: Request)
    requires whole { Whole image.old }
    requires allowed { Allowed wait q (view image.old) }
    ensures { Does image.old (wait_effect q) image.new }
{
    let o = q.id as usize;
    let mask = q.a as u16;
    let mode = q.b as u8;
    let c = head::chosen(image) as usize;
    let word = flags::word(image, o);
    if conditions::holds(mode, mask, word) {
        threads::set_result(image, c, 1);
        threads::set_delivered(image, c, word);
    } else {
        waking::start_to_wait(image, FLAGS_LIST + o, c, q.c, mask, mode);
    }
}

// Thread i, which stands on list l, is delivered the word and woken, where its condition holds of it.
fn wake_met(image: &mut Image, l: usize, i: usize, word: u16)
    requires { On image.old l i }
    ensures { Does image.old (wake_met word i) image.new }
{
    let mode = threads::mode(image, i);
    let mask = threads::mask(image, i);
    if conditions::holds(mode, mask, word) {
        threads::set_delivered(image, i, word);
        waking::wake(image, l, i, 1);
    }
}

// First the word changes, then those it concerns are woken as they stood in the list: the link to the next is read before one leaves.
// (A walk from link to link, which no range or iterator of std has.)
fn change_word(image: &mut Image, o: usize, word: u16)
    requires whole { Whole image.old }
    requires o_bound { o < 4 }
    ensures { Does image.old (change_word o word) image.new }
{
    flags::set_word(image, o, word);
    let l = PRIORITY_COUNT + (FLAGS_LIST + o);
    let mut link = standing::first_of(image, FLAGS_LIST + o);
    while link != 0 {
        let i = (link as usize) - 1;
        link = image[LINKS + i];
        wake_met(image, l, i, word);
    }
}

pub fn set_flags(image: &mut Image, o: usize, mask: u16)
    requires whole { Whole image.old }
    requires o_bound { o < 4 }
    ensures { Does image.old (set_flags o mask) image.new }
{
    let word = flags::word(image, o);
    change_word(image, o, word | mask);
}

// Call 17.
pub fn set(image: &mut Image, q: Request)
    requires whole { Whole image.old }
    requires allowed { Allowed set q (view image.old) }
    ensures { Does image.old (set_effect q) image.new }
{
    set_flags(image, q.id as usize, q.a as u16);
}

// Call 18: the bits that word and mask share are taken away.
pub fn clear(image: &mut Image, q: Request)
    requires whole { Whole image.old }
    requires allowed { Allowed clear q (view image.old) }
    ensures { Does image.old (clear_effect q) image.new }
{
    let o = q.id as usize;
    let mask = q.a as u16;
    let word = flags::word(image, o);
    change_word(image, o, word - (word & mask));
}
