// Timers and limits that are told of the ticks that they are owed.
ghost use Rattle.model.specs.Layout.{view};
ghost use Rattle.words.specs.Images.{Whole, Does};
ghost use Rattle.timed.specs.Owed.{owed_times, owed_limits, owed};
ghost use Rattle.timed.specs.Running.{TimersTo, LimitsFrom};
ghost use Rattle.timed.specs.Within.{Within};

use crate::running::Reach;
use fields::places::Image;
use fields::{threads, timers};

fn settle_timers(image: &mut Image, m: u32, end: usize)
    requires whole { Whole image.old }
    requires timers_to { TimersTo end (view image.old) }
    ensures { Does image.old (owed_times m) image.new }
{
    for o in 0..end {
        let x = timers::left(image, o);
        if x != 0 {
            timers::set_left(image, o, x.saturating_sub(m));
        }
    }
}

fn settle_limits(image: &mut Image, m: u32, from: usize, end: usize)
    requires whole { Whole image.old }
    requires limits_from { LimitsFrom from end (view image.old) }
    ensures { Does image.old (owed_limits m) image.new }
{
    for i in from..end {
        let x = threads::limit(image, i);
        if x != 0 {
            threads::set_limit(image, i, x.saturating_sub(m));
        }
    }
}

pub fn settle(image: &mut Image, m: u32, reach: Reach)
    requires whole { Whole image.old }
    requires within { Within reach (view image.old) }
    ensures { Does image.old (owed m) image.new }
{
    settle_timers(image, m, reach.stop);
    settle_limits(image, m, reach.from, reach.end);
}
