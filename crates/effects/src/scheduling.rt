// The effect of call 21: asked for 0 it is off, asked for 1 it isn't.
ghost use Rattle.model.specs.Calls.{scheduling};
ghost use Rattle.model.specs.Effects.{scheduling_effect};
ghost use Rattle.model.specs.Layout.{view};
ghost use Rattle.theorems.specs.Allowed.{Allowed};
ghost use Rattle.words.specs.Images.{Whole, Does};

use fields::head;
use fields::places::Image;
use model::requests::Request;

pub fn scheduling(image: &mut Image, q: Request)
    requires whole { Whole image.old }
    requires allowed { Allowed scheduling q (view image.old) }
    ensures { Does image.old (scheduling_effect q) image.new }
{
    head::set_off(image, (1 - q.a) as u8);
}
