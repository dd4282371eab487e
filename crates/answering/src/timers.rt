// The answers of calls 19 and 20.
#![tactic(auto, unfolding(model::specs::Calls::answers))]

ghost use Rattle.std.specs.Prelude.{◌≡◌};
ghost use Rattle.model.specs.Answers.{first-due};
ghost use Rattle.model.specs.Calls.{answers, start_timer};

use crate::readable::Readable;
use model::answers::Answer;
use model::requests::Request;
use rules::due::Due;
use rules::{actions, request_fields};

pub fn start_timer<T: Readable>(t: &T, q: Request) -> Answer
    requires { T.readable t.now }
    ensures { result ≡ first-due (answers start_timer q (T.state t.now)) }
{
    let kind = q.c % 256;
    let object = q.c / 256;
    Due {
        object: !((q.id < 8) & t.names_object(kind, object)),
        number: !(request_fields::is_positive_32(q.a)
            & (q.b <= 1)
            & actions::action_in_range(kind, object, q.d)),
        ..Due::default()
    }
    .first()
}
