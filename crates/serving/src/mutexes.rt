// The effects of calls 12 to 14.
ghost use Rattle.std.specs.Prelude.{◌<◌, ◌≤◌};
ghost use Rattle.model.specs.State.{mutex_list};
ghost use Rattle.model.specs.Parts.{thread, list};
ghost use Rattle.model.specs.Calls.{create_mutex, claim, release};
ghost use Rattle.model.specs.Effects.{create_mutex_effect, raise, claim_effect, fall, hand_over, release_effect};
ghost use Rattle.model.specs.Layout.{view};
ghost use Rattle.theorems.specs.Allowed.{Allowed};
ghost use Rattle.words.specs.Images.{Whole, Given, Does};

use fields::places::{Image, PRIORITY_COUNT};
use fields::{head, mutexes, threads};
use model::lists::MUTEX_LIST;
use model::requests::Request;
use model::tables::Mutex;
use rules::owners;
use words::{priorities, standing, waking};

// Call 12.
pub fn create_mutex(image: &mut Image, q: Request)
    requires whole { Whole image.old }
    requires allowed { Allowed create_mutex q (view image.old) }
    ensures { Does image.old (create_mutex_effect q) image.new }
{
    let x = Mutex {
        created: 1,
        owner: 0,
        depth: 0,
    };
    mutexes::store(image, q.id as usize, x);
}

// The current priority of `from`, where it exceeds that of thread i, becomes that of thread i.
fn raise(image: &mut Image, i: usize, from: usize)
    requires given { Given image.old i }
    requires from_bound { from < 16 }
    ensures { Does image.old (raise i from) image.new }
{
    let p = threads::current(image, from);
    if threads::current(image, i) < p {
        priorities::take_priority(image, i, p);
    }
}

// Call 13: another's mutex is waited for, and its owner raised; else it is the running thread's, once more if it was already.
pub fn claim(image: &mut Image, q: Request)
    requires whole { Whole image.old }
    requires allowed { Allowed claim q (view image.old) }
    ensures { Does image.old (claim_effect q) image.new }
{
    let o = q.id as usize;
    let c = head::chosen(image);
    let i = c as usize;
    let x = mutexes::mutex(image, o);
    if owners::is_others(x, c) {
        waking::start_to_wait(image, MUTEX_LIST + o, i, q.a, 0, 0);
        raise(image, x.owner as usize, i);
    } else {
        mutexes::set_owner(image, o, c, x.depth + 1);
        threads::set_result(image, i, 1);
    }
}

// To its base priority.
fn fall(image: &mut Image, i: usize)
    requires given { Given image.old i }
    requires image_bound { (thread i (view image.old)).base < 8 }
    ensures { Does image.old (fall i) image.new }
{
    let p = threads::base(image, i);
    priorities::take_priority(image, i, p);
}

// The first waiter owns it and is woken; with none it is unowned.
fn hand_over(image: &mut Image, o: usize)
    requires whole { Whole image.old }
    requires o_bound { o < 4 }
    ensures { Does image.old (λ s. hand_over o (list (mutex_list o) s) s) image.new }
{
    let link = standing::first_of(image, MUTEX_LIST + o);
    if link == 0 {
        mutexes::set_owner(image, o, 0, 0);
    } else {
        mutexes::set_owner(image, o, link - 1, 1);
        waking::wake(
            image,
            PRIORITY_COUNT + (MUTEX_LIST + o),
            (link as usize) - 1,
            1,
        );
    }
}

// Call 14: with the last level first the fall, then the new owner.
pub fn release(image: &mut Image, q: Request)
    requires whole { Whole image.old }
    requires allowed { Allowed release q (view image.old) }
    ensures { Does image.old (release_effect q) image.new }
{
    let o = q.id as usize;
    let depth = mutexes::depth(image, o);
    if depth == 1 {
        let i = head::chosen(image) as usize;
        fall(image, i);
        hand_over(image, o);
    } else {
        let owner = mutexes::owner(image, o);
        mutexes::set_owner(image, o, owner, depth - 1);
    }
}
