// The answers of calls 21 and 22, which depend on nothing but the request.
#![tactic(auto, unfolding(model::specs::Calls::answers))]

ghost use Rattle.std.specs.Prelude.{◌≡◌, ◌<◌, ◌≤◌};
ghost use Rattle.model.specs.State.{State};
ghost use Rattle.model.specs.Answers.{first-due};
ghost use Rattle.model.specs.Calls.{answers, numbered, scheduling, advance};
ghost use Rattle.model.specs.Kernel.{judge};

use crate::due::Due;
use crate::request_fields;
use model::answers::Answer;
use model::calls::Call;
use model::requests::Request;

pub fn scheduling(q: Request) -> Answer
    ensures { (s : State) → result ≡ first-due (answers scheduling q s) }
{
    Due {
        number: !((q.id == 0) & (q.a <= 1) & request_fields::unused_bcd(q)),
        ..Due::default()
    }
    .first()
}

pub fn advance(q: Request) -> Answer
    ensures { (s : State) → result ≡ first-due (answers advance q s) }
{
    Due {
        number: !((q.id == 0) & request_fields::limit_only(q)),
        ..Due::default()
    }
    .first()
}

// Whichever of the two it is.
pub fn answer(q: Request) -> Answer
    requires { (21 ≤ q.call) × (q.call < 23) }
    ensures { (s : State) → result ≡ judge (numbered q.call) q s }
{
    if q.call == Call::Scheduling as u32 {
        scheduling(q)
    } else {
        advance(q)
    }
}
