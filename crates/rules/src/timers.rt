// The answer of call 20, which depends on nothing but the request.
#![tactic(auto, unfolding(model::specs::Calls::answers))]

ghost use Rattle.std.specs.Prelude.{◌≡◌};
ghost use Rattle.model.specs.State.{State};
ghost use Rattle.model.specs.Answers.{first-due};
ghost use Rattle.model.specs.Calls.{answers, stop_timer};

use crate::due::Due;
use crate::request_fields;
use model::answers::Answer;
use model::requests::Request;

pub fn stop_timer(q: Request) -> Answer
    ensures { (s : State) → result ≡ first-due (answers stop_timer q s) }
{
    Due {
        object: 8 <= q.id,
        number: !request_fields::unused_abcd(q),
        ..Due::default()
    }
    .first()
}
