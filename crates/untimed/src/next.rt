// The next wake-up, worked out from the records each time it is asked for: nothing is kept that could be out of date.
ghost use Rattle.std.specs.Prelude.{◌≡◌, cond, List, ℕ, ◌<◌, length, map};
ghost use Rattle.model.specs.declared.tables.Thread.{Thread};
ghost use Rattle.model.specs.declared.tables.Timer.{Timer};
ghost use Rattle.model.specs.Parts.{thread};
ghost use Rattle.model.specs.Tick.{quantum_counts};
ghost use Rattle.model.specs.Time.{next};
ghost use Rattle.model.specs.Layout.{view};
ghost use Rattle.words.specs.Images.{Whole};
ghost use Rattle.untimed.specs.Counters.{Nearest, Tells};

use fields::places::{IMAGE_LENGTH, Image, LINKED_LISTS, LINKS, THREAD_COUNT, TIMER_COUNT};
use fields::{head, threads, timers};
use links::walking;
use rules::counting;
use rules::counting::NEVER;

// The place of the nearest of so many counters.
fn nearest<F: Fn(usize) -> u32>(count: usize, counter: F) -> u32
    requires { (o : ℕ) → o < count → F.pre counter o }
    ensures { (l : List ℕ) → length l ≡ count → Tells (F.post counter) l → Nearest l result }
{
    let mut least = NEVER;
    for o in (0..count).rev() {
        least = counting::place(counter(o)).min(least);
    }
    least
}

// The place of the nearest timer.
pub fn nearest_timer(image: &Image) -> u32
    ensures { Nearest (map (λ (t : Timer). t.left) (view image.now).timers) result }
{
    nearest(TIMER_COUNT, |o| timers::left(image, o))
}

// The place of the nearest limit.
pub fn nearest_limit(image: &Image) -> u32
    ensures { Nearest (map (λ (t : Thread). t.limit) (view image.now).threads) result }
{
    nearest(THREAD_COUNT, |i| threads::limit(image, i))
}

// What is left of the running thread's quantum, where it counts (01, One tick, 2); else 0. Where nobody runs there is no quantum.
pub fn quantum_left(image: &Image) -> u16
    requires { Whole image.now }
    ensures { result ≡ cond (quantum_counts (view image.now)) (thread (view image.now).chosen (view image.now)).left 0 }
{
    let i = head::chosen(image) as usize;
    if (head::off(image) != 0) | (THREAD_COUNT <= i) {
        return 0;
    }
    if threads::quantum(image, i) == 0 {
        return 0;
    }
    let p = threads::current(image, i) as usize;
    if !walking::is_shared(&image[LINKS..IMAGE_LENGTH], THREAD_COUNT, LINKED_LISTS, p) {
        return 0;
    }
    threads::left(image, i)
}

#[tactic(auto, using(crate::proofs::Passing::nearest_of), unfolding(model::specs::Time::next))]
pub fn next_wake_up(image: &Image) -> u32
    requires { Whole image.now }
    ensures { result ≡ next (view image.now) }
{
    let quantum = counting::place(u32::from(quantum_left(image)));
    let timer = nearest_timer(image);
    let limit = nearest_limit(image);
    let first = quantum.min(timer.min(limit));
    counting::counter_at(first)
}
