// The answers of calls 12 to 14.
#![tactic(auto, unfolding(model::specs::Calls::answers))]

ghost use Rattle.std.specs.Prelude.{◌≡◌};
ghost use Rattle.model.specs.Answers.{first-due};
ghost use Rattle.model.specs.Calls.{answers, create_mutex, claim, release};

use crate::readable::Readable;
use model::answers::Answer;
use model::requests::Request;
use model::tables::NOBODY;
use rules::due::Due;
use rules::{owners, request_fields};

pub fn create_mutex<T: Readable>(t: &T, q: Request) -> Answer
    requires { T.readable t.now }
    ensures { result ≡ first-due (answers create_mutex q (T.state t.now)) }
{
    Due {
        object: 4 <= q.id,
        number: !request_fields::unused_abcd(q),
        exists: t.has_mutex(q.id),
        ..Due::default()
    }
    .first()
}

pub fn claim<T: Readable>(t: &T, q: Request) -> Answer
    requires { T.readable t.now }
    ensures { result ≡ first-due (answers claim q (T.state t.now)) }
{
    let c = t.chosen();
    let x = t.mutex(q.id);
    let waits = owners::is_others(x, c);
    Due {
        object: !t.has_mutex(q.id),
        number: !request_fields::limit_only(q),
        nobody: c == NOBODY,
        off: (t.off() != 0) & waits,
        full: owners::owns(x, c) & (x.depth == 255),
        waits,
        ..Due::default()
    }
    .first()
}

pub fn release<T: Readable>(t: &T, q: Request) -> Answer
    requires { T.readable t.now }
    ensures { result ≡ first-due (answers release q (T.state t.now)) }
{
    let c = t.chosen();
    let x = t.mutex(q.id);
    Due {
        object: !t.has_mutex(q.id),
        number: !request_fields::unused_abcd(q),
        nobody: c == NOBODY,
        state: !owners::owns(x, c),
        ..Due::default()
    }
    .first()
}
