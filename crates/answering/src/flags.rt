// The answers of calls 15 to 18.
#![tactic(auto, unfolding(model::specs::Calls::answers))]

ghost use Rattle.std.specs.Prelude.{◌≡◌, true, not, ◌&&◌, eqb, leb};
ghost use Rattle.model.specs.Ranges.{is_positive_16, fits_32};
ghost use Rattle.model.specs.Words.{holds};
ghost use Rattle.model.specs.Answers.{first-due};
ghost use Rattle.model.specs.Calls.{answers, create_flags, wait, set, clear};

use crate::readable::Readable;
use model::answers::Answer;
use model::requests::Request;
use model::tables::NOBODY;
use rules::due::Due;
use rules::{conditions, request_fields};

pub fn create_flags<T: Readable>(t: &T, q: Request) -> Answer
    requires { T.readable t.now }
    ensures { result ≡ first-due (answers create_flags q (T.state t.now)) }
{
    Due {
        object: 4 <= q.id,
        number: !((q.a <= 65535) & request_fields::unused_bcd(q)),
        exists: t.has_flags(q.id),
        ..Due::default()
    }
    .first()
}

// The condition that is asked for doesn't hold of the word. Of a mask or a mode out of range it doesn't matter.
fn is_unmet(q: Request, word: u16) -> bool
    ensures { (is_positive_16 q.a && leb q.b 3 && fits_32 q.c && eqb q.d 0) ≡ true → result ≡ not (holds q.b q.a word) }
{
    request_fields::wait_fits(q) && !conditions::holds(q.b as u8, q.a as u16, word)
}

pub fn wait<T: Readable>(t: &T, q: Request) -> Answer
    requires { T.readable t.now }
    ensures { result ≡ first-due (answers wait q (T.state t.now)) }
{
    let word = t.word(q.id);
    let waits = is_unmet(q, word);
    Due {
        object: !t.has_flags(q.id),
        number: !request_fields::wait_fits(q),
        nobody: t.chosen() == NOBODY,
        off: (t.off() != 0) & waits,
        waits,
        ..Due::default()
    }
    .first()
}

// A set or a clear: a flag object and a mask.
pub fn change<T: Readable>(t: &T, q: Request) -> Answer
    requires { T.readable t.now }
    ensures value { result ≡ first-due (answers set q (T.state t.now)) }
    ensures value_2 { result ≡ first-due (answers clear q (T.state t.now)) }
{
    Due {
        object: !t.has_flags(q.id),
        number: !(request_fields::is_positive_16(q.a) & request_fields::unused_bcd(q)),
        ..Due::default()
    }
    .first()
}
