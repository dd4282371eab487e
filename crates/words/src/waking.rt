// Ready, waiting, asleep, awake (01, Calls, the rules under the table). Limit, mask and mode are handed on one by one, as the model's words take them.
ghost use Rattle.std.specs.Prelude.{◌<◌};
ghost use Rattle.model.specs.Words.{become_ready, suspend, start_to_wait, start_to_sleep, wake};
ghost use Rattle.words.specs.Images.{On, Ready, Does};

use crate::moving;
use fields::places::Image;
use fields::threads;
use model::lists::SLEEP_LIST;

// From list l, on which it stands.
pub fn become_ready(image: &mut Image, l: usize, i: usize)
    requires { On image.old l i }
    ensures { Does image.old (become_ready i) image.new }
{
    moving::leave(image, l, i);
    moving::enter_ready(image, i);
}

// Off its ready list, with no result yet: who starts to wait or to sleep runs.
fn suspend(image: &mut Image, i: usize, limit: u32, mask: u16, mode: u8)
    requires { Ready image.old i }
    ensures { Does image.old (suspend i limit mask mode) image.new }
{
    threads::set_wait(image, i, limit, 0, mask, mode);
    let p = threads::current(image, i) as usize;
    moving::leave(image, p, i);
}

pub fn start_to_wait(image: &mut Image, j: usize, i: usize, limit: u32, mask: u16, mode: u8)
    requires ready { Ready image.old i }
    requires j_bound { j < 18 }
    ensures { Does image.old (start_to_wait j i limit mask mode) image.new }
{
    suspend(image, i, limit, mask, mode);
    moving::enter_by_priority(image, j, i);
}

pub fn start_to_sleep(image: &mut Image, i: usize, span: u32)
    requires { Ready image.old i }
    ensures { Does image.old (start_to_sleep i span) image.new }
{
    suspend(image, i, span, 0, 0);
    moving::enter_tail(image, SLEEP_LIST, i);
}

// From list l, on which it stands.
pub fn wake(image: &mut Image, l: usize, i: usize, res: u8)
    requires { On image.old l i }
    ensures { Does image.old (wake i res) image.new }
{
    threads::set_wait(image, i, 0, res, 0, 0);
    become_ready(image, l, i);
}
