// For users who lend their image: a fresh one, the soundness test, a whole call, an advance, the next wake-up. Each takes any bytes of any length
// and any numbers; where the image isn't sound the answer is 1, and every byte stays as it was.
#![tactic(auto)]

ghost use Rattle.std.specs.Prelude.{◌≡◌, eqb, length};
ghost use Rattle.model.specs.Layout.{image_length};
ghost use Rattle.model.specs.Promises.{advancing};
ghost use Rattle.in_place.specs.Kept.{fresh_kept, told, kept, next_told};

use fields::places::Image;
use model::answers::{Answer, Report};
use model::calls::Call;
use model::requests::Request;
pub use rules::numbers::is_accepted;
use rules::reports::unsound;
pub use sound::is_sound;
use untimed::next;

// Writes a fresh table where there is room for just one, and tells whether there was.
pub fn fresh(image: &mut [u8]) -> bool
    ensures answer { result ≡ eqb (length image.old) image_length }
    ensures image { image.new ≡ fresh_kept image.old }
{
    match image.as_mut_array() {
        Some(image) => {
            untimed::fresh::fresh(image);
            true
        }
        None => false,
    }
}

// A call where the length is right.
fn call_of_length(image: &mut Image, q: Request) -> Report
    ensures report { result ≡ told image.old q }
    ensures image { image.new ≡ kept image.old q }
{
    if !is_sound(image) {
        return unsound();
    }
    // One test: whether time passes is all that is asked here.
    if q.call == Call::Advance as u32 {
        timed::timed(image, q)
    } else {
        untimed::untimed(image, q)
    }
}

// Any call: its answer and what is reported beside it; the image is changed in place.
pub fn call(image: &mut [u8], q: Request) -> Report
    ensures report { result ≡ told image.old q }
    ensures image { image.new ≡ kept image.old q }
{
    match image.as_mut_array() {
        Some(image) => call_of_length(image, q),
        None => unsound(),
    }
}

// Call 22 by n ticks.
pub fn advance(image: &mut [u8], n: u32) -> Report
    ensures report { result ≡ told image.old (advancing n) }
    ensures image { image.new ≡ kept image.old (advancing n) }
{
    let q = Request {
        call: Call::Advance as u32,
        id: 0,
        a: n,
        b: 0,
        c: 0,
        d: 0,
    };
    call(image, q)
}

// The next wake-up where the length is right.
fn next_of_length(image: &Image) -> Report
    ensures { result ≡ next_told image.now }
{
    if !is_sound(image) {
        return unsound();
    }
    let next = next::next_wake_up(image);
    untimed::told(image, Answer::Done, 0, next)
}

// The next wake-up by itself, worked out from the records; the report is that of a call that changes nothing.
pub fn next_wake_up(image: &[u8]) -> Report
    ensures { result ≡ next_told image.now }
{
    match image.as_array() {
        Some(image) => next_of_length(image),
        None => unsound(),
    }
}
