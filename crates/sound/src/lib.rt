// Whether any bytes are a sound image (01, The table, the paragraph on soundness). Nothing is trusted: the links are followed first, and each
// thread is noted with the list that it is read on; then a pass over the threads, the choice, and a pass over each kind of object ask what is
// left. The test ends at the first fault.
#![tactic(auto)]

ghost use Rattle.std.specs.Prelude.{◌≡◌};
ghost use Rattle.model.specs.Layout.{sound_image};

use fields::places::{Image, LINKED_LISTS, LINKS, THREAD_COUNT};

// For each thread its mark: 0, or one more than the number of the list that it is read on.
type Marks = [u8; THREAD_COUNT];

mod choice;
mod objects;
mod threads;
mod timers;

fn is_sound_image(image: &Image) -> bool
    ensures { result ≡ sound_image image.now }
{
    let mut marks = [0; THREAD_COUNT];
    if !links::noting::note(image, LINKS, THREAD_COUNT, LINKED_LISTS, &mut marks) {
        return false;
    }
    threads::threads_fit(image, &marks)
        && choice::choice_fits(image, &marks)
        && objects::objects_fit(image, &marks)
}

pub fn is_sound(image: &[u8]) -> bool
    ensures { result ≡ sound_image image.now }
{
    match <&Image>::try_from(image) {
        Ok(image) => is_sound_image(image),
        Err(_) => false,
    }
}
