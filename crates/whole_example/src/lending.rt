// A table in a local that is lent to each call. Nothing is asked of the bytes that it begins with.
ghost use Rattle.std.specs.Prelude.{◌≡◌};
ghost use Rattle.whole_example.specs.Run.{first_run};

use lent::Held;
use model::answers::Report;
use model::requests::Request;

#[derive(Clone, Copy)]
pub struct Told {
    pub created: Report,
    pub started: Report,
    pub advanced: Report,
}

pub fn first_run(t: Held, create: Request, start: Request, ticks: u32) -> Told
    ensures { result ≡ first_run create start ticks }
{
    let mut table = t;
    table.fresh();
    let created = table.call(create);
    let started = table.call(start);
    let advanced = table.advance(ticks);
    Told {
        created,
        started,
        advanced,
    }
}
