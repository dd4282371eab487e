// For users: a fresh table, the soundness test, a whole call, an advance, the next wake-up, and which answers accept. Each takes any table,
// any rows and any numbers; where the table isn't sound the answer is 1, and every field stays as it was.
#![tactic(auto)]

ghost use Rattle.std.specs.Prelude.{◌≡◌};
ghost use Rattle.model.specs.declared.answers.Answer.TheVariants.{Unsound};
ghost use Rattle.model.specs.State.{nobody};
ghost use Rattle.model.specs.Before.{call_table};
ghost use Rattle.model.specs.Promises.{advancing};
ghost use Rattle.model.specs.Stored.{next_told};

use model::answers::{Answer, Reply, Report};
use model::calls::Call;
use model::requests::Request;
use model::tables::Table;
pub use rules::numbers::is_accepted;
use rules::reports::unsound;
pub use soundness::is_sound;
pub use table::fresh::{fresh, fresh_rows};

// Any call: its answer, what is reported beside it, and the table and rows handed back.
pub fn call(t: Table, rows: &mut [[u8; 16]; 8], q: Request) -> Reply
    ensures { record { reply = result; rows = rows.new } ≡ call_table t rows.old q }
{
    let all = *rows;
    if is_sound(t, all) {
        // One test: whether time passes is all that is asked here.
        if q.call == Call::Advance as u32 {
            time::timed(t, rows, q)
        } else {
            kernel::untimed(t, rows, q)
        }
    } else {
        let report = unsound();
        Reply { report, table: t }
    }
}

// Call 22 by n ticks.
pub fn advance(t: Table, rows: &mut [[u8; 16]; 8], n: u32) -> Reply
    ensures { record { reply = result; rows = rows.new } ≡ call_table t rows.old (advancing n) }
{
    let q = Request {
        call: Call::Advance as u32,
        id: 0,
        a: n,
        b: 0,
        c: 0,
        d: 0,
    };
    call(t, rows, q)
}

// The next wake-up by itself, worked out from the records; the report is that of a call that changes nothing.
pub fn next_wake_up(t: Table, rows: [[u8; 16]; 8]) -> Report
    ensures { result ≡ next_told t rows }
{
    if is_sound(t, rows) {
        let next = kernel::next::next_wake_up(t);
        kernel::report(t, Answer::Done, 0, next)
    } else {
        unsound()
    }
}
