// Which answers accept (01, Answers).
ghost use Rattle.std.specs.Prelude.{◌≡◌};
ghost use Rattle.model.specs.Answers.{accepted};

use model::answers::Answer;

pub fn is_accepted(a: Answer) -> bool
    ensures { result ≡ accepted a }
{
    matches!(a, Answer::Done | Answer::Waits)
}
