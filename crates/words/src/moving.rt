// Which list a thread stands on, off it, and on another. List p of the links is ready list p; the others, by their numbers, come behind these.
ghost use Rattle.std.specs.Prelude.{◌≡◌, ◌<◌};
ghost use Rattle.sequences.specs.Lists.{first_at, among};
ghost use Rattle.model.specs.Words.{leave, enter_tail, enter_ready, enter_by_priority};
ghost use Rattle.model.specs.Layout.{lists_of};
ghost use Rattle.words.specs.Images.{Given, On, Off, OffFor, Spotted, Does};

use fields::places::{
    CURRENTS, IMAGE_LENGTH, Image, LINKED_LISTS, LINKS, PRIORITY_COUNT, THREAD_COUNT, THREAD_LENGTH,
};
use fields::threads;
use links::walking::Spot;
use links::{entering, leaving, walking};

// The list that a thread stands on, the ready lists first; 26 where there is none.
pub fn list_of(image: &Image, i: usize) -> usize
    requires { Given image.now i }
    ensures { result ≡ first_at (among i) (lists_of image.now) }
{
    walking::list_of(&image[LINKS..IMAGE_LENGTH], THREAD_COUNT, LINKED_LISTS, i)
}

// Off list l, on which it stands, so that nothing is searched for.
pub fn leave(image: &mut Image, l: usize, i: usize)
    requires { On image.old l i }
    ensures { Does image.old (leave i) image.new }
{
    leaving::leave_list(
        &mut image[LINKS..IMAGE_LENGTH],
        THREAD_COUNT,
        LINKED_LISTS,
        l,
        i,
    );
}

pub fn enter_tail(image: &mut Image, j: usize, i: usize)
    requires { OffFor image.old j i }
    ensures { Does image.old (enter_tail j i) image.new }
{
    entering::enter_tail(
        &mut image[LINKS..IMAGE_LENGTH],
        THREAD_COUNT,
        LINKED_LISTS,
        PRIORITY_COUNT + j,
        i,
    );
}

pub fn enter_ready(image: &mut Image, i: usize)
    requires { Off image.old i }
    ensures { Does image.old (enter_ready i) image.new }
{
    let p = threads::current(image, i) as usize;
    entering::enter_tail(
        &mut image[LINKS..IMAGE_LENGTH],
        THREAD_COUNT,
        LINKED_LISTS,
        p,
        i,
    );
}

// Where thread i belongs on list j: past everyone with the same current priority or a higher one (01, Calls, on entering a wait list). The walk
// counts the place that it comes to.
fn rank(image: &Image, j: usize, i: usize) -> Spot
    requires given { Given image.now i }
    requires j_bound { j < 18 }
    ensures { Spotted image.now j i result.place result.cell }
{
    let p = threads::current(image, i);
    walking::rank(
        &image[LINKS..IMAGE_LENGTH],
        THREAD_COUNT,
        LINKED_LISTS,
        PRIORITY_COUNT + j,
        image,
        CURRENTS,
        THREAD_LENGTH,
        p,
    )
}

pub fn enter_by_priority(image: &mut Image, j: usize, i: usize)
    requires { OffFor image.old j i }
    ensures { Does image.old (enter_by_priority j i) image.new }
{
    let spot = rank(image, j, i);
    entering::enter_behind(
        &mut image[LINKS..IMAGE_LENGTH],
        THREAD_COUNT,
        LINKED_LISTS,
        PRIORITY_COUNT + j,
        spot.cell,
        i,
    );
}
