// The answers of calls 9 to 11.
#![tactic(auto, unfolding(model::specs::Calls::answers))]

ghost use Rattle.std.specs.Prelude.{◌≡◌};
ghost use Rattle.model.specs.Answers.{first-due};
ghost use Rattle.model.specs.Calls.{answers, create_semaphore, pend, post};

use crate::readable::Readable;
use model::answers::Answer;
use model::requests::Request;
use model::tables::NOBODY;
use rules::due::Due;
use rules::request_fields;

pub fn create_semaphore<T: Readable>(t: &T, q: Request) -> Answer
    requires { T.readable t.now }
    ensures { result ≡ first-due (answers create_semaphore q (T.state t.now)) }
{
    Due {
        object: 8 <= q.id,
        number: !(request_fields::is_positive_16(q.b)
            & (q.a <= q.b)
            & request_fields::unused_cd(q)),
        exists: t.has_semaphore(q.id),
        ..Due::default()
    }
    .first()
}

pub fn pend<T: Readable>(t: &T, q: Request) -> Answer
    requires { T.readable t.now }
    ensures { result ≡ first-due (answers pend q (T.state t.now)) }
{
    let waits = t.count(q.id) == 0;
    Due {
        object: !t.has_semaphore(q.id),
        number: !request_fields::limit_only(q),
        nobody: t.chosen() == NOBODY,
        off: (t.off() != 0) & waits,
        waits,
        ..Due::default()
    }
    .first()
}

pub fn post<T: Readable>(t: &T, q: Request) -> Answer
    requires { T.readable t.now }
    ensures { result ≡ first-due (answers post q (T.state t.now)) }
{
    Due {
        object: !t.has_semaphore(q.id),
        number: !request_fields::unused_abcd(q),
        full: t.is_full(q.id),
        ..Due::default()
    }
    .first()
}
