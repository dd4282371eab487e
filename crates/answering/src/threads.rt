// The answers of calls 1 to 8.
#![tactic(auto, unfolding(model::specs::Calls::answers))]

ghost use Rattle.std.specs.Prelude.{◌≡◌};
ghost use Rattle.model.specs.Answers.{first-due};
ghost use Rattle.model.specs.Calls.{answers, create_thread, start, stop, exit, yield, sleep, set_priority, set_quantum};

use crate::readable::Readable;
use model::answers::Answer;
use model::requests::Request;
use model::tables::NOBODY;
use rules::due::Due;
use rules::request_fields;

pub fn create_thread<T: Readable>(t: &T, q: Request) -> Answer
    requires { T.readable t.now }
    ensures { result ≡ first-due (answers create_thread q (T.state t.now)) }
{
    Due {
        object: 16 <= q.id,
        number: !((q.a < 8) & (q.b <= 65535) & request_fields::unused_cd(q)),
        exists: t.has_thread(q.id),
        ..Due::default()
    }
    .first()
}

pub fn start<T: Readable>(t: &T, q: Request) -> Answer
    requires { T.readable t.now }
    ensures { result ≡ first-due (answers start q (T.state t.now)) }
{
    Due {
        object: !t.has_thread(q.id),
        number: !request_fields::unused_abcd(q),
        state: !t.is_stopped(q.id),
        ..Due::default()
    }
    .first()
}

pub fn stop<T: Readable>(t: &T, q: Request) -> Answer
    requires { T.readable t.now }
    ensures { result ≡ first-due (answers stop q (T.state t.now)) }
{
    Due {
        object: !t.has_thread(q.id),
        number: !request_fields::unused_abcd(q),
        off: (t.off() != 0) & (q.id == (t.chosen() as u32)),
        state: !t.is_ready(q.id),
        ..Due::default()
    }
    .first()
}

pub fn exit<T: Readable>(t: &T, q: Request) -> Answer
    requires { T.readable t.now }
    ensures { result ≡ first-due (answers exit q (T.state t.now)) }
{
    let c = t.chosen();
    Due {
        number: !((q.id == 0) & request_fields::unused_abcd(q)),
        nobody: c == NOBODY,
        off: t.off() != 0,
        state: t.owns_any(c),
        ..Due::default()
    }
    .first()
}

pub fn yields<T: Readable>(t: &T, q: Request) -> Answer
    requires { T.readable t.now }
    ensures { result ≡ first-due (answers yield q (T.state t.now)) }
{
    Due {
        number: !((q.id == 0) & request_fields::unused_abcd(q)),
        nobody: t.chosen() == NOBODY,
        off: t.off() != 0,
        ..Due::default()
    }
    .first()
}

pub fn sleep<T: Readable>(t: &T, q: Request) -> Answer
    requires { T.readable t.now }
    ensures { result ≡ first-due (answers sleep q (T.state t.now)) }
{
    Due {
        number: !((q.id == 0)
            & request_fields::is_positive_32(q.a)
            & request_fields::unused_bcd(q)),
        nobody: t.chosen() == NOBODY,
        off: t.off() != 0,
        waits: true,
        ..Due::default()
    }
    .first()
}

pub fn set_priority<T: Readable>(t: &T, q: Request) -> Answer
    requires { T.readable t.now }
    ensures { result ≡ first-due (answers set_priority q (T.state t.now)) }
{
    Due {
        object: !t.has_thread(q.id),
        number: !((q.a < 8) & request_fields::unused_bcd(q)),
        ..Due::default()
    }
    .first()
}

pub fn set_quantum<T: Readable>(t: &T, q: Request) -> Answer
    requires { T.readable t.now }
    ensures { result ≡ first-due (answers set_quantum q (T.state t.now)) }
{
    Due {
        object: !t.has_thread(q.id),
        number: !((q.a <= 65535) & request_fields::unused_bcd(q)),
        ..Due::default()
    }
    .first()
}
