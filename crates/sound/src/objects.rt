// Semaphores, mutexes and flag objects, each by itself and by whether somebody waits for it; then the timers.
ghost use Rattle.std.specs.Prelude.{◌≡◌, ◌<◌, get_or};
ghost use Rattle.model.specs.State.{semaphore_list, mutex_list};
ghost use Rattle.model.specs.Parts.{semaphore, mutex};
ghost use Rattle.model.specs.Sound.{waited_for};
ghost use Rattle.model.specs.Layout.{view};
ghost use Rattle.sound.specs.Asked.{Followed, semaphore_asked, mutex_asked, flags_asked};
ghost use Rattle.sound.specs.Asked.{owner_asked, semaphores_asked, mutexes_asked, flag_objects_asked, objects_asked};

use crate::{Marks, timers};
use fields::places::{
    FLAGS_COUNT, Image, MUTEX_COUNT, PRIORITY_COUNT, SEMAPHORE_COUNT, THREAD_COUNT,
};
use fields::{flags, mutexes, semaphores};
use model::lists::{FLAGS_LIST, MUTEX_LIST, SEMAPHORE_LIST};
use model::tables::Flags;
use words::standing;

// ---- semaphores

#[tactic(auto, unfolding(crate::specs::Asked::semaphore_asked))]
fn semaphore_fits(image: &Image, o: usize) -> bool
    requires { o < 8 }
    ensures { result ≡ semaphore_asked (semaphore o (view image.now)) (waited_for (semaphore_list o) (view image.now)) }
{
    if semaphores::created(image, o) != 1 {
        return semaphores::is_blank(image, o) && !standing::waited_for(image, SEMAPHORE_LIST + o);
    }
    if semaphores::count(image, o) == 0 {
        return 0 < semaphores::maximum(image, o);
    }
    // Count and maximum by one more read: else every semaphore would pay for both.
    let levels = semaphores::levels(image, o);
    levels % 65536 <= levels / 65536 && !standing::waited_for(image, SEMAPHORE_LIST + o)
}

fn semaphores_fit(image: &Image) -> bool
    ensures { result ≡ semaphores_asked (view image.now) }
{
    (0..SEMAPHORE_COUNT).all(|o| semaphore_fits(image, o))
}

// ---- mutexes

// An owner is there, and waits elsewhere, as its mark tells.
#[tactic(auto, unfolding(crate::specs::Asked::owner_asked))]
fn owner_fits(marks: &Marks, o: usize, owner: u8) -> bool
    requires { o < 4 }
    ensures { result ≡ owner_asked o owner (get_or marks.now owner 0) }
{
    let i = usize::from(owner);
    i < THREAD_COUNT
        && marks[i] != 0
        && usize::from(marks[i]) != PRIORITY_COUNT + MUTEX_LIST + o + 1
}

// Without an owner one number tells that all is 0, but for whether it is there.
#[tactic(auto, unfolding(crate::specs::Asked::mutex_asked))]
fn mutex_fits(image: &Image, marks: &Marks, o: usize) -> bool
    requires { o < 4 }
    ensures { result ≡ mutex_asked o (mutex o (view image.now)) (waited_for (mutex_list o) (view image.now)) (get_or marks.now (mutex o (view image.now)).owner 0) }
{
    if mutexes::ownership(image, o) <= 1 {
        return !standing::waited_for(image, MUTEX_LIST + o);
    }
    let x = mutexes::mutex(image, o);
    x.depth != 0 && x.created == 1 && owner_fits(marks, o, x.owner)
}

fn mutexes_fit(image: &Image, marks: &Marks) -> bool
    ensures { result ≡ mutexes_asked marks.now (view image.now) }
{
    (0..MUTEX_COUNT).all(|o| mutex_fits(image, marks, o))
}

// ---- flag objects

#[tactic(auto, unfolding(crate::specs::Asked::flags_asked))]
fn flags_fit(x: Flags, waited: bool) -> bool
    ensures { result ≡ flags_asked x waited }
{
    x.created == 1 || (x.created == 0 && x.word == 0 && !waited)
}

fn flag_objects_fit(image: &Image) -> bool
    ensures { result ≡ flag_objects_asked (view image.now) }
{
    (0..FLAGS_COUNT).all(|o| flags_fit(
        flags::flag_object(image, o),
        standing::waited_for(image, FLAGS_LIST + o),
    ))
}

// ---- all of them

#[tactic(auto, unfolding(crate::specs::Asked::objects_asked))]
pub fn objects_fit(image: &Image, marks: &Marks) -> bool
    requires { Followed image.now marks.now }
    ensures { result ≡ objects_asked marks.now (view image.now) }
{
    semaphores_fit(image)
        && mutexes_fit(image, marks)
        && flag_objects_fit(image)
        && timers::timers_fit(image)
}
