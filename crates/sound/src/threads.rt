// The threads, each by the list that it was noted on (01, The table, the paragraph on soundness).
ghost use Rattle.std.specs.Prelude.{◌≡◌, ◌&&◌, ◌-◌, ◌<◌, ◌≤◌, get_or};
ghost use Rattle.model.specs.Parts.{thread, flag_object};
ghost use Rattle.model.specs.Sound.{zero_thread};
ghost use Rattle.model.specs.Layout.{view};
ghost use Rattle.sound.specs.Asked.{Followed, previous_link, nothing_of, priority_fits, quantum_fits, idle, asleep};
ghost use Rattle.sound.specs.Asked.{behind_previous, awaits, waits_right, rests_right, stands_right, thread_asked, threads_asked};

use crate::Marks;
use fields::places::{Image, LINKS, PREVIOUS, PRIORITY_COUNT, THREAD_COUNT};
use fields::{flags, threads};
use model::lists::{FLAGS_LIST, SEMAPHORE_LIST, STOPPED_LIST};
use model::modes::Mode;
use model::tables::Thread;
use rules::conditions;
use words::owners;

// Marks of lists that are no ready lists: of the stopped list, of the first wait list, and of the first wait list of a flag object.
const STOPPED_MARK: usize = PRIORITY_COUNT + STOPPED_LIST + 1;

const WAITS_MARK: usize = PRIORITY_COUNT + SEMAPHORE_LIST + 1;

const FLAGS_MARK: usize = PRIORITY_COUNT + FLAGS_LIST + 1;

// ---- on no list

#[tactic(auto, unfolding(crate::specs::Asked::nothing_of))]
fn is_nothing(image: &Image, i: usize) -> bool
    requires { i < 16 }
    ensures { result ≡ nothing_of i image.now }
{
    let t = threads::thread(image, i);
    (t == Thread::default()) & ((image[LINKS + i] == 0) & (image[PREVIOUS + i] == 0))
}

// ---- on any list

#[tactic(auto, unfolding(crate::specs::Asked::priority_fits))]
fn priority_fits(image: &Image, i: usize) -> bool
    requires { i < 16 }
    ensures { result ≡ priority_fits i (view image.now) }
{
    let base = threads::base(image, i);
    let current = threads::current(image, i);
    usize::from(current) < PRIORITY_COUNT
        && (base == current || (base < current && owners::owns_any(image, i as u8)))
}

#[tactic(auto, unfolding(crate::specs::Asked::quantum_fits))]
fn quantum_fits(image: &Image, i: usize) -> bool
    requires { i < 16 }
    ensures { result ≡ quantum_fits (thread i (view image.now)) }
{
    let quantum = threads::quantum(image, i);
    let left = threads::left(image, i);
    // Both 0 by one more read: asked of the two at hand, every thread would pay for it.
    (0 < left && left <= quantum) || threads::quanta(image, i) == 0
}

// Ready or stopped: no limit, a result of 2 at most, and no mask or mode, which would make the number larger.
#[tactic(auto, unfolding(crate::specs::Asked::idle))]
fn is_idle(image: &Image, i: usize) -> bool
    requires { i < 16 }
    ensures { result ≡ idle (thread i (view image.now)) }
{
    threads::limit(image, i) == 0 && threads::ending(image, i) <= 2
}

// A limit, and no result, mask or mode.
#[tactic(auto, unfolding(crate::specs::Asked::asleep))]
fn is_asleep(image: &Image, i: usize) -> bool
    requires { i < 16 }
    ensures { result ≡ asleep (thread i (view image.now)) }
{
    0 < threads::limit(image, i) && threads::ending(image, i) == 0
}

// ---- on a wait list

// No higher than who stands before it.
#[tactic(auto, unfolding(crate::specs::Asked::behind_previous))]
fn is_behind(image: &Image, i: usize) -> bool
    requires i_bound { i < 16 }
    requires image_bound { previous_link i image.now ≤ 16 }
    ensures { result ≡ behind_previous i image.now }
{
    let link = image[PREVIOUS + i];
    link == 0 || threads::current(image, i) <= threads::current(image, usize::from(link) - 1)
}

#[tactic(auto, unfolding(crate::specs::Asked::awaits))]
fn awaits(image: &Image, i: usize, o: usize) -> bool
    requires i_bound { i < 16 }
    requires o_bound { o < 4 }
    ensures { result ≡ awaits (flag_object o (view image.now)).word (thread i (view image.now)) }
{
    let mask = threads::mask(image, i);
    let mode = threads::mode(image, i);
    0 < mask
        && Mode::try_from(mode).is_ok()
        && !conditions::holds(mode, mask, flags::word(image, o))
}

#[tactic(auto, unfolding(crate::specs::Asked::waits_right))]
fn waits_right(image: &Image, i: usize, mark: usize) -> bool
    requires i_bound { i < 16 }
    requires image_bound { (previous_link i image.now ≤ 16) × (9 ≤ mark) × (mark ≤ 26) }
    ensures { result ≡ waits_right (mark - 9) i image.now }
{
    if mark < FLAGS_MARK {
        return is_behind(image, i) && threads::ending(image, i) == 0;
    }
    is_behind(image, i) && threads::result(image, i) == 0 && awaits(image, i, mark - FLAGS_MARK)
}

// ---- all of it

#[tactic(auto, unfolding(crate::specs::Asked::rests_right))]
fn rests_right(image: &Image, i: usize, mark: usize) -> bool
    requires i_bound { i < 16 }
    requires image_bound { (previous_link i image.now ≤ 16) × (9 ≤ mark) × (mark ≤ 26) }
    ensures { result ≡ rests_right (mark - 9) i image.now }
{
    if WAITS_MARK <= mark {
        waits_right(image, i, mark)
    } else if mark == STOPPED_MARK {
        is_idle(image, i)
    } else {
        is_asleep(image, i)
    }
}

// On a list that is no ready list.
#[tactic(auto, unfolding(crate::specs::Asked::stands_right))]
fn stands_aside(image: &Image, i: usize, mark: usize) -> bool
    requires i_bound { i < 16 }
    requires image_bound { (previous_link i image.now ≤ 16) × (9 ≤ mark) × (mark ≤ 26) }
    ensures { result ≡ stands_right (mark - 1) i image.now }
{
    threads::created(image, i) == 1
        && priority_fits(image, i)
        && quantum_fits(image, i)
        && rests_right(image, i, mark)
}

// What else is asked of who is ready.
fn is_fresh(image: &Image, i: usize) -> bool
    requires { i < 16 }
    ensures { result ≡ (quantum_fits (thread i (view image.now)) && idle (thread i (view image.now))) }
{
    quantum_fits(image, i) && is_idle(image, i)
}

// On a ready list, at its base or above it.
#[tactic(auto, unfolding(crate::specs::Asked::stands_right))]
fn stands_ready(image: &Image, i: usize, p: u8) -> bool
    requires i_bound { i < 16 }
    requires p_bound { p < 8 }
    ensures { result ≡ stands_right p i image.now }
{
    threads::created(image, i) == 1
        && threads::current(image, i) == p
        && priority_fits(image, i)
        && is_fresh(image, i)
}

// By its mark. Of who is there, with base and current p, one number is 1 + 65792 p, and on ready list p the mark is p + 1: so one comparison tells of
// most ready threads. With a mark of 0 it never holds.
fn thread_fits(image: &Image, marks: &Marks, i: usize) -> bool
    requires followed { Followed image.now marks.now }
    requires i_bound { i < 16 }
    ensures { result ≡ thread_asked (get_or marks.now i 0) i image.now }
{
    let mark = marks[i];
    if (PRIORITY_COUNT as u8) < mark {
        return stands_aside(image, i, usize::from(mark));
    }
    if threads::standing(image, i) + 65791 == 65792 * u32::from(mark) {
        return is_fresh(image, i);
    }
    if mark == 0 {
        return is_nothing(image, i);
    }
    stands_ready(image, i, mark - 1)
}

pub fn threads_fit(image: &Image, marks: &Marks) -> bool
    requires { Followed image.now marks.now }
    ensures { result ≡ threads_asked marks.now image.now }
{
    (0..THREAD_COUNT).all(|i| thread_fits(image, marks, i))
}
