// Where a thread stands, and whether anybody stands on a list.
ghost use Rattle.std.specs.Prelude.{◌≡◌, ◌<◌};
ghost use Rattle.sequences.specs.Links.{head_link};
ghost use Rattle.model.specs.Parts.{list};
ghost use Rattle.model.specs.Words.{is_ready, is_stopped};
ghost use Rattle.model.specs.Sound.{waited_for};
ghost use Rattle.model.specs.Layout.{view};
ghost use Rattle.fields.specs.Fields.{Sized};
ghost use Rattle.words.specs.Images.{Whole};

use crate::moving;
use fields::places::{FIRSTS, Image, PRIORITY_COUNT, THREAD_COUNT};
use model::lists::STOPPED_LIST;

// An id may be any number of 32 bits: who isn't a thread stands nowhere.
pub fn is_ready(image: &Image, i: u32) -> bool
    requires { Whole image.now }
    ensures { result ≡ is_ready i (view image.now) }
{
    if i < (THREAD_COUNT as u32) {
        return moving::list_of(image, i as usize) < PRIORITY_COUNT;
    }
    false
}

pub fn is_stopped(image: &Image, i: u32) -> bool
    requires { Whole image.now }
    ensures { result ≡ is_stopped i (view image.now) }
{
    if i < (THREAD_COUNT as u32) {
        return moving::list_of(image, i as usize) == PRIORITY_COUNT + STOPPED_LIST;
    }
    false
}

// The link to the first of list j, which is no ready list: its id plus one, or 0.
pub fn first_of(image: &Image, j: usize) -> u8
    requires j_bound { j < 18 }
    ensures { result ≡ head_link (list j (view image.now)) }
{
    image[FIRSTS + (PRIORITY_COUNT + j)]
}

// Somebody stands on list j, which is no ready list. A list has a first exactly where it isn't empty, whatever its links are otherwise.
pub fn waited_for(image: &Image, j: usize) -> bool
    requires j_bound { j < 18 }
    ensures { result ≡ waited_for j (view image.now) }
{
    first_of(image, j) != 0
}
