// The order of the answers (01, Answers): a call marks what is due, and the lowest number is given.
ghost use Rattle.std.specs.Prelude.{◌≡◌};
ghost use Rattle.model.specs.Answers.{first-due};
ghost use Rattle.rules.specs.Due.{listed};

use model::answers::Answer;

// For the answers from 3 to 10 whether each is due: several can be, so there is a mark for each.
#[derive(Clone, Copy, Default)]
pub struct Due {
    pub object: bool,
    pub number: bool,
    pub exists: bool,
    pub nobody: bool,
    pub off: bool,
    pub state: bool,
    pub full: bool,
    pub waits: bool,
}

impl Due {
    // The answer that is given: the lowest number that is due, else done.
    pub fn first(self) -> Answer
        ensures { result ≡ first-due (listed self) }
    {
        if self.object {
            return Answer::NoObject;
        }
        if self.number {
            return Answer::BadNumber;
        }
        if self.exists {
            return Answer::Exists;
        }
        if self.nobody {
            return Answer::NobodyRuns;
        }
        if self.off {
            return Answer::SchedulingOff;
        }
        if self.state {
            return Answer::WrongState;
        }
        if self.full {
            return Answer::Full;
        }
        if self.waits {
            return Answer::Waits;
        }
        Answer::Done
    }
}
