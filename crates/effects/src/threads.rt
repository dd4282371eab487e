// The effects of calls 1 to 8.
ghost use Rattle.std.specs.Prelude.{◌≡◌, ◌<◌, ◌≤◌};
ghost use Rattle.model.specs.Calls.{create_thread, start, stop, exit, yield, sleep, set_priority, set_quantum};
ghost use Rattle.model.specs.Effects.{new_current, create_thread_effect, start_effect, stop_effect, exit_effect, yield_effect, sleep_effect, set_priority_effect, set_quantum_effect};
ghost use Rattle.model.specs.Layout.{view};
ghost use Rattle.theorems.specs.Allowed.{Allowed};
ghost use Rattle.words.specs.Images.{Whole, Does};

use fields::places::{Image, PRIORITY_COUNT};
use fields::{head, threads};
use model::lists::STOPPED_LIST;
use model::requests::Request;
use words::{owners, priorities, waking};

// Call 1: last among the stopped.
pub fn create_thread(image: &mut Image, q: Request)
    requires whole { Whole image.old }
    requires allowed { Allowed create_thread q (view image.old) }
    ensures { Does image.old (create_thread_effect q) image.new }
{
    let i = q.id as usize;
    let x = rules::threads::new_thread(q.a as u8, q.b as u16);
    threads::store(image, i, x);
    words::enter_tail(image, STOPPED_LIST, i);
}

// Call 2: from the stopped list to its ready tail.
pub fn start(image: &mut Image, q: Request)
    requires whole { Whole image.old }
    requires allowed { Allowed start q (view image.old) }
    ensures { Does image.old (start_effect q) image.new }
{
    waking::become_ready(image, PRIORITY_COUNT + STOPPED_LIST, q.id as usize);
}

// Call 3: from its ready list to the stopped tail.
pub fn stop(image: &mut Image, q: Request)
    requires whole { Whole image.old }
    requires allowed { Allowed stop q (view image.old) }
    ensures { Does image.old (stop_effect q) image.new }
{
    let i = q.id as usize;
    let ready = threads::current(image, i) as usize;
    words::leave(image, ready, i);
    words::enter_tail(image, STOPPED_LIST, i);
}

// Call 4: nothing is left of the running thread.
pub fn exit(image: &mut Image, q: Request)
    requires whole { Whole image.old }
    requires allowed { Allowed exit q (view image.old) }
    ensures { Does image.old (exit_effect q) image.new }
{
    let i = head::chosen(image) as usize;
    let p = threads::current(image, i) as usize;
    words::leave(image, p, i);
    threads::store(image, i, rules::threads::absent_thread());
}

// Call 5: the running thread behind all others of its priority.
pub fn yields(image: &mut Image, q: Request)
    requires whole { Whole image.old }
    requires allowed { Allowed yield q (view image.old) }
    ensures { Does image.old (yield_effect q) image.new }
{
    let i = head::chosen(image) as usize;
    let p = threads::current(image, i) as usize;
    waking::become_ready(image, p, i);
}

// Call 6.
pub fn sleep(image: &mut Image, q: Request)
    requires whole { Whole image.old }
    requires allowed { Allowed sleep q (view image.old) }
    ensures { Does image.old (sleep_effect q) image.new }
{
    let i = head::chosen(image) as usize;
    waking::start_to_sleep(image, i, q.a);
}

// Who owns a mutex doesn't fall by a new base.
fn new_current(image: &Image, i: usize, base: u8) -> u8
    requires { i < 16 }
    ensures { result ≡ new_current i base (view image.now) }
{
    let current = threads::current(image, i);
    if base < current {
        if owners::owns_any(image, i as u8) {
            return current;
        }
    }
    base
}

// Call 7: a new base, and the current priority that follows from it.
pub fn set_priority(image: &mut Image, q: Request)
    requires whole { Whole image.old }
    requires allowed { Allowed set_priority q (view image.old) }
    ensures { Does image.old (set_priority_effect q) image.new }
{
    let i = q.id as usize;
    let base = q.a as u8;
    let p = new_current(image, i, base);
    threads::set_base(image, i, base);
    priorities::take_priority(image, i, p);
}

// Call 8.
pub fn set_quantum(image: &mut Image, q: Request)
    requires whole { Whole image.old }
    requires allowed { Allowed set_quantum q (view image.old) }
    ensures { Does image.old (set_quantum_effect q) image.new }
{
    threads::set_quantum(image, q.id as usize, q.a as u16, q.a as u16);
}
