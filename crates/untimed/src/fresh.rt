// A fresh table written in place (01, The table): nothing created, every number and every link 0, scheduling on, nobody chosen.
ghost use Rattle.std.specs.Prelude.{◌≡◌};
ghost use Rattle.model.specs.State.{fresh};
ghost use Rattle.model.specs.Layout.{lay};

use fields::head::CHOSEN;
use fields::places::{IMAGE_LENGTH, Image};
use model::tables::NOBODY;

#[tactic(auto, unfolding(model::specs::Layout::lay, model::specs::State::fresh, sequences::specs::Bytes::flat, sequences::specs::Links::half_of, sequences::specs::Lists::tabulate))]
pub fn fresh(image: &mut Image)
    ensures { image.new ≡ lay fresh }
{
    *image = [0; IMAGE_LENGTH];
    image[CHOSEN] = NOBODY;
}
