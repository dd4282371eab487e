// The effects of calls 9 to 11; timers post by the same word.
ghost use Rattle.std.specs.Prelude.{◌<◌, ◌≤◌};
ghost use Rattle.model.specs.Parts.{alter_semaphore};
ghost use Rattle.model.specs.Calls.{create_semaphore, pend, post};
ghost use Rattle.model.specs.Effects.{create_semaphore_effect, pend_effect, one_more, post_semaphore, post_effect};
ghost use Rattle.model.specs.Layout.{view};
ghost use Rattle.fields.specs.Fields.{Alters};
ghost use Rattle.theorems.specs.Allowed.{Allowed};
ghost use Rattle.words.specs.Images.{Whole, Does};

use fields::places::{Image, PRIORITY_COUNT};
use fields::{head, semaphores, threads};
use model::lists::SEMAPHORE_LIST;
use model::requests::Request;
use model::tables::Semaphore;
use words::{standing, waking};

// Call 9.
pub fn create_semaphore(image: &mut Image, q: Request)
    requires whole { Whole image.old }
    requires allowed { Allowed create_semaphore q (view image.old) }
    ensures { Does image.old (create_semaphore_effect q) image.new }
{
    let x = Semaphore {
        created: 1,
        count: q.a as u16,
        maximum: q.b as u16,
    };
    semaphores::store(image, q.id as usize, x);
}

// Call 10: a count above 0 is taken, else the running thread waits.
pub fn pend(image: &mut Image, q: Request)
    requires whole { Whole image.old }
    requires allowed { Allowed pend q (view image.old) }
    ensures { Does image.old (pend_effect q) image.new }
{
    let o = q.id as usize;
    let c = head::chosen(image) as usize;
    let count = semaphores::count(image, o);
    if count == 0 {
        waking::start_to_wait(image, SEMAPHORE_LIST + o, c, q.a, 0, 0);
    } else {
        semaphores::set_count(image, o, count - 1);
        threads::set_result(image, c, 1);
    }
}

// One more, as far as the maximum.
fn count_up(image: &mut Image, o: usize)
    requires { o < 8 }
    ensures { Alters image.old (alter_semaphore o one_more) image.new }
{
    let count = semaphores::count(image, o);
    if count < semaphores::maximum(image, o) {
        semaphores::set_count(image, o, count + 1);
    }
}

// The first waiter is woken; with none the count goes up.
pub fn post_semaphore(image: &mut Image, o: usize)
    requires whole { Whole image.old }
    requires o_bound { o < 8 }
    ensures { Does image.old (post_semaphore o) image.new }
{
    let link = standing::first_of(image, SEMAPHORE_LIST + o);
    if link == 0 {
        count_up(image, o);
    } else {
        waking::wake(
            image,
            PRIORITY_COUNT + (SEMAPHORE_LIST + o),
            (link as usize) - 1,
            1,
        );
    }
}

// Call 11.
pub fn post(image: &mut Image, q: Request)
    requires whole { Whole image.old }
    requires allowed { Allowed post q (view image.old) }
    ensures { Does image.old (post_effect q) image.new }
{
    post_semaphore(image, q.id as usize);
}
