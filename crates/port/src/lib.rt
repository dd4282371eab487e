// The C port: the table as an image, calls as numbers (include/ordizgum.h). Each function takes any bytes of any length, and
// goes on with those of the right length as an `Image`.
#![tactic(auto)]

ghost use Rattle.std.specs.Prelude.{◌≡◌, [], ◌∷◌};
ghost use Rattle.model.specs.Answers.{number};
ghost use Rattle.rules.specs.Reports.{zero_if, asked, report_numbers};
ghost use Rattle.image.specs.Image.{image_length};
ghost use Rattle.port.specs.Port.{right_length, sound_image, fresh_after, report_of, image_after, next_in};

use image::{IMAGE_LENGTH, Image};
use model::answers::Report;
use model::requests::Request;
use rules::reports::{self, REFUSED, REPORT_LENGTH};

#[unsafe(no_mangle)]
pub extern "C" fn ordizgum_image_length() -> u32
    ensures { result ≡ image_length }
{
    IMAGE_LENGTH as u32
}

#[unsafe(no_mangle)]
pub extern "C" fn ordizgum_fresh(image: &mut [u8]) -> u32
    ensures answer { result ≡ zero_if (right_length image.old) }
    ensures image { image.new ≡ fresh_after image.old }
{
    let Some(image) = image.as_mut_array() else {
        return 1;
    };
    image::write(entries::fresh(), entries::fresh_rows(), image);
    0
}

#[unsafe(no_mangle)]
pub extern "C" fn ordizgum_sound(image: &[u8]) -> u32
    ensures { result ≡ zero_if (sound_image image.now) }
{
    let Some(image) = image.as_array() else {
        return 1;
    };
    if entries::is_sound(image::read_table(image), image::read_rows(image)) {
        0
    } else {
        1
    }
}

// A call where the length is right.
fn call_of_length(image: &mut Image, q: Request) -> Report
    ensures report { result ≡ report_of image.old q }
    ensures image { image.new ≡ image_after image.old q }
{
    let mut rows = image::read_rows(image);
    let reply = entries::call(image::read_table(image), &mut rows, q);
    if entries::is_accepted(reply.report.answer) {
        image::write(reply.table, rows, image);
    }
    reply.report
}

#[unsafe(no_mangle)]
pub extern "C" fn ordizgum_call(
    image: &mut [u8],
    call: u32,
    id: u32,
    a: u32,
    b: u32,
    c: u32,
    d: u32,
    report: &mut [u32; REPORT_LENGTH],
) -> u32
    ensures answer { result ≡ number (report_of image.old (asked call id a b c d)).answer }
    ensures report { report.new ≡ report_numbers (report_of image.old (asked call id a b c d)) }
    ensures image { image.new ≡ image_after image.old (asked call id a b c d) }
{
    let Some(image) = image.as_mut_array() else {
        *report = REFUSED;
        return 1;
    };
    let q = Request {
        call,
        id,
        a,
        b,
        c,
        d,
    };
    let numbers = reports::as_numbers(call_of_length(image, q));
    *report = numbers;
    numbers[0]
}

#[unsafe(no_mangle)]
pub extern "C" fn ordizgum_next_wake_up(image: &[u8], next: &mut [u32; 1]) -> u32
    ensures answer { result ≡ zero_if (sound_image image.now) }
    ensures next { next.new ≡ next_in image.now ∷ [] }
{
    let Some(image) = image.as_array() else {
        *next = [0];
        return 1;
    };
    let told = entries::next_wake_up(image::read_table(image), image::read_rows(image));
    *next = [told.next];
    u32::from(told.answer)
}
