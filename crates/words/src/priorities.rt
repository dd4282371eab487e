// A new current priority: who is ready goes behind all others of it, who waits is ranked anew, any other stays where it is; no change, no
// move (01, Calls, on a changed priority).
ghost use Rattle.std.specs.Prelude.{◌<◌, ◌≤◌};
ghost use Rattle.model.specs.Parts.{alter_thread, with_current};
ghost use Rattle.model.specs.Words.{re_enter, take_priority};
ghost use Rattle.words.specs.Images.{Given, Does};

use crate::moving;
use fields::places::{Image, LINKED_LISTS, PRIORITY_COUNT};
use fields::threads;
use model::lists::SEMAPHORE_LIST;

// Off its list before the priority changes, which tells a ready thread's list.
fn retake(image: &mut Image, i: usize, p: u8)
    requires given { Given image.old i }
    requires p_bound { p < 8 }
    ensures { Does image.old (λ s. re_enter i (alter_thread i (with_current p) s)) image.new }
{
    let j = moving::list_of(image, i);
    if j < PRIORITY_COUNT {
        moving::leave(image, j, i);
        threads::set_current(image, i, p);
        moving::enter_ready(image, i);
        return;
    }
    if (PRIORITY_COUNT + SEMAPHORE_LIST <= j) & (j < LINKED_LISTS) {
        moving::leave(image, j, i);
        threads::set_current(image, i, p);
        moving::enter_by_priority(image, j - PRIORITY_COUNT, i);
        return;
    }
    threads::set_current(image, i, p);
}

pub fn take_priority(image: &mut Image, i: usize, p: u8)
    requires given { Given image.old i }
    requires p_bound { p < 8 }
    ensures { Does image.old (take_priority i p) image.new }
{
    if threads::current(image, i) != p {
        retake(image, i, p);
    }
}
