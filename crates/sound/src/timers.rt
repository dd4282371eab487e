// The timers: periods, and the rules for actions (01, Calls, call 19).
ghost use Rattle.std.specs.Prelude.{◌≡◌, ◌/◌, ◌%◌, ◌<◌, ◌≤◌};
ghost use Rattle.model.specs.Parts.{timer};
ghost use Rattle.model.specs.Layout.{view};
ghost use Rattle.fields.specs.Fields.{action};
ghost use Rattle.sound.specs.Asked.{action_asked, timer_asked, timers_asked};

use fields::places::{Image, TIMER_COUNT};
use fields::timers;
use model::actions::Action;
use words::objects;

// What is neither nothing nor a post has to be a set of flags.
fn setting_fits(image: &Image, o: usize) -> bool
    requires named { o < 8 }
    requires fact { (action (timer o (view image.now)) ≤ 1 → ⊥) × (action (timer o (view image.now)) % 65536 / 2 ≡ 128 → ⊥) }
    ensures { result ≡ action_asked (timer o (view image.now)) (view image.now) }
{
    let t = timers::timer(image, o);
    Action::try_from(t.kind) == Ok(Action::SetFlags)
        && t.repeat <= 1
        && 0 < t.mask
        && objects::has_flags(image, u32::from(t.object))
}

// Nothing and a post are told by one number. For nothing it is the mark to repeat alone. For a post its low 16 bits are 256 and that mark, and
// above stands the object, where there is no mask.
fn action_fits(image: &Image, o: usize) -> bool
    requires { o < 8 }
    ensures { result ≡ action_asked (timer o (view image.now)) (view image.now) }
{
    let action = timers::action(image, o);
    if action <= 1 {
        return true;
    }
    if action % 65536 / 2 == 128 {
        return objects::has_semaphore(image, (action / 65536) as u32);
    }
    setting_fits(image, o)
}

#[tactic(auto, unfolding(crate::specs::Asked::timer_asked))]
fn timer_fits(image: &Image, o: usize) -> bool
    requires { o < 8 }
    ensures { result ≡ timer_asked (timer o (view image.now)) (view image.now) }
{
    let period = timers::period(image, o);
    if period == 0 {
        timers::is_blank(image, o)
    } else {
        timers::left(image, o) <= period && action_fits(image, o)
    }
}

pub fn timers_fit(image: &Image) -> bool
    ensures { result ≡ timers_asked (view image.now) }
{
    (0..TIMER_COUNT).all(|o| timer_fits(image, o))
}
