// What is on its way to users of C, under names of its own and in no header: here it can be compared with the second program and measured before
// it takes over.
#![tactic(auto)]

ghost use Rattle.std.specs.Prelude.{◌≡◌, [], ◌∷◌, eqb, length};
ghost use Rattle.model.specs.Answers.{number};
ghost use Rattle.model.specs.Layout.{image_length, sound_image};
ghost use Rattle.rules.specs.Reports.{zero_if, asked, report_numbers};
ghost use Rattle.in_place.specs.Kept.{fresh_kept, told, kept, next_told};

use fields::places::IMAGE_LENGTH;
use model::requests::Request;
use rules::reports;
use rules::reports::REPORT_LENGTH;

#[unsafe(no_mangle)]
pub extern "C" fn ordizgum_linked_image_length() -> u32
    ensures { result ≡ image_length }
{
    IMAGE_LENGTH as u32
}

#[unsafe(no_mangle)]
pub extern "C" fn ordizgum_linked_fresh(image: &mut [u8]) -> u32
    ensures answer { result ≡ zero_if (eqb (length image.old) image_length) }
    ensures image { image.new ≡ fresh_kept image.old }
{
    if in_place::fresh(image) { 0 } else { 1 }
}

// Whether any bytes are a sound image with links: 0, or 1 where they aren't.
#[unsafe(no_mangle)]
pub extern "C" fn ordizgum_linked_sound(image: &[u8]) -> u32
    ensures { result ≡ zero_if (sound_image image.now) }
{
    if in_place::is_sound(image) { 0 } else { 1 }
}

#[unsafe(no_mangle)]
pub extern "C" fn ordizgum_linked_call(
    image: &mut [u8],
    call: u32,
    id: u32,
    a: u32,
    b: u32,
    c: u32,
    d: u32,
    report: &mut [u32; REPORT_LENGTH],
) -> u32
    ensures answer { result ≡ number (told image.old (asked call id a b c d)).answer }
    ensures report { report.new ≡ report_numbers (told image.old (asked call id a b c d)) }
    ensures image { image.new ≡ kept image.old (asked call id a b c d) }
{
    let q = Request {
        call,
        id,
        a,
        b,
        c,
        d,
    };
    let told = in_place::call(image, q);
    let numbers = reports::as_numbers(told);
    *report = numbers;
    numbers[0]
}

#[unsafe(no_mangle)]
pub extern "C" fn ordizgum_linked_next_wake_up(image: &[u8], next: &mut [u32; 1]) -> u32
    ensures answer { result ≡ zero_if (sound_image image.now) }
    ensures next { next.new ≡ (next_told image.now).next ∷ [] }
{
    let told = in_place::next_wake_up(image);
    *next = [told.next];
    u32::from(told.answer)
}
