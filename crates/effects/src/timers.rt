// The effects of calls 19 and 20.
ghost use Rattle.std.specs.Prelude.{◌<◌, ◌≤◌};
ghost use Rattle.model.specs.Calls.{start_timer, stop_timer};
ghost use Rattle.model.specs.Effects.{start_timer_effect, stop_timer_effect};
ghost use Rattle.model.specs.Layout.{view};
ghost use Rattle.theorems.specs.Allowed.{Allowed};
ghost use Rattle.words.specs.Images.{Whole, Does};

use fields::places::Image;
use fields::timers;
use model::requests::Request;
use model::tables::Timer;

// Call 19: everything anew but the count.
pub fn start_timer(image: &mut Image, q: Request)
    requires whole { Whole image.old }
    requires allowed { Allowed start_timer q (view image.old) }
    ensures { Does image.old (start_timer_effect q) image.new }
{
    let o = q.id as usize;
    let x = Timer {
        period: q.a,
        left: q.a,
        repeat: q.b as u8,
        kind: (q.c % 256) as u8,
        object: (q.c / 256) as u8,
        mask: q.d as u16,
        count: timers::count(image, o),
    };
    timers::store(image, o, x);
}

// Call 20.
pub fn stop_timer(image: &mut Image, q: Request)
    requires whole { Whole image.old }
    requires allowed { Allowed stop_timer q (view image.old) }
    ensures { Does image.old (stop_timer_effect q) image.new }
{
    timers::set_left(image, q.id as usize, 0);
}
