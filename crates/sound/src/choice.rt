// The choice: with scheduling on it is the head of the highest ready list that isn't empty, off it is any ready thread or nobody.
ghost use Rattle.std.specs.Prelude.{◌≡◌, ◌&&◌};
ghost use Rattle.sequences.specs.Links.{Orderly};
ghost use Rattle.model.specs.Ranges.{is_bit};
ghost use Rattle.model.specs.Words.{is_ready};
ghost use Rattle.model.specs.Sound.{choice_fits};
ghost use Rattle.model.specs.Layout.{view, links_part};
ghost use Rattle.sound.specs.Asked.{Followed};

use crate::Marks;
use fields::head;
use fields::places::{Image, PRIORITY_COUNT, THREAD_COUNT};
use model::tables::NOBODY;
use words::choosing;

// By its mark; a number that is no thread's isn't ready.
fn is_ready(image: &Image, marks: &Marks, i: u8) -> bool
    requires followed { Followed image.now marks.now }
    requires orderly { Orderly 16 26 (links_part image.now) }
    ensures { result ≡ is_ready i (view image.now) }
{
    let x = usize::from(i);
    x < THREAD_COUNT && (1..=PRIORITY_COUNT).contains(&usize::from(marks[x]))
}

#[tactic(auto, unfolding(model::specs::Sound::choice_fits))]
pub fn choice_fits(image: &Image, marks: &Marks) -> bool
    requires followed { Followed image.now marks.now }
    requires orderly { Orderly 16 26 (links_part image.now) }
    ensures { result ≡ (is_bit (view image.now).off && choice_fits (view image.now)) }
{
    let chosen = head::chosen(image);
    match head::off(image) {
        0 => chosen == choosing::choice(image),
        1 => chosen == NOBODY || is_ready(image, marks, chosen),
        _ => false,
    }
}
