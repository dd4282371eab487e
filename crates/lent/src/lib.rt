// The table as a value that its user holds, an array of its image's bytes: covered methods take one and hand one back; the thin methods behind
// them are lent one, call those and store the result.
#![tactic(auto)]

ghost use Rattle.std.specs.Prelude.{◌≡◌};
ghost use Rattle.model.specs.State.{fresh};
ghost use Rattle.model.specs.Layout.{lay};
ghost use Rattle.model.specs.Promises.{advancing};
ghost use Rattle.lent.specs.Held.{call_held};

use fields::places::IMAGE_LENGTH;
use model::answers::Report;
use model::requests::Request;

#[derive(Clone, Copy)]
pub struct Held {
    pub image: [u8; IMAGE_LENGTH],
}

#[derive(Clone, Copy)]
pub struct Replied {
    pub report: Report,
    pub table: Held,
}

impl Held {
    // ---- by value

    pub fn new() -> Held
        ensures { result ≡ record { image = lay fresh } }
    {
        let mut image = [0; IMAGE_LENGTH];
        in_place::fresh(&mut image);
        Held { image }
    }

    pub fn called(self, q: Request) -> Replied
        ensures { result ≡ call_held self q }
    {
        let mut image = self.image;
        let report = in_place::call(&mut image, q);
        Replied {
            report,
            table: Held { image },
        }
    }

    pub fn advanced(self, n: u32) -> Replied
        ensures { result ≡ call_held self (advancing n) }
    {
        let mut image = self.image;
        let report = in_place::advance(&mut image, n);
        Replied {
            report,
            table: Held { image },
        }
    }

    // ---- over a table that is lent

    pub fn fresh(&mut self)
        ensures { self.new ≡ record { image = lay fresh } }
    {
        *self = Held::new();
    }

    pub fn call(&mut self, q: Request) -> Report
        ensures { record { report = result; table = self.new } ≡ call_held self.old q }
    {
        let reply = self.called(q);
        *self = reply.table;
        reply.report
    }

    pub fn advance(&mut self, n: u32) -> Report
        ensures { record { report = result; table = self.new } ≡ call_held self.old (advancing n) }
    {
        let reply = self.advanced(n);
        *self = reply.table;
        reply.report
    }
}
