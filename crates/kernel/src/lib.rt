// The calls in which no time passes, 1 to 21: their effects, a file per object family, then the choice, and the reply; and the next
// wake-up. Which call is refused is the business of the crate below.
#![tactic(auto)]

ghost use Rattle.std.specs.Prelude.{◌≡◌, true, ◌<◌};
ghost use Rattle.model.specs.Calls.{numbered};
ghost use Rattle.model.specs.Kernel.{judge, perform, next_state, call};
ghost use Rattle.model.specs.Before.{view, sound_table, laid};
ghost use Rattle.table.specs.Orderly.{Does};
ghost use Rattle.kernel.specs.Allowed.{Accepted};
ghost use Rattle.theorems.specs.Effect.{effect};

use model::answers::{Answer, Reply, Report};
use model::calls::Call;
use model::requests::Request;
use model::tables::Table;
use rules::numbers;
use table::choosing;

pub mod flags;
mod mutexes;
pub mod next;
mod scheduling;
pub mod semaphores;
mod threads;
mod timers;

// The effect of a call in which no time passes.
#[tactic(auto, unfolding(theorems::specs::Effect::effect_by, theorems::specs::Effect::effect_of, model::specs::Kernel::judge))]
fn effect(t: Table, rows: &mut [[u8; 16]; 8], q: Request) -> Table
    requires accepted { Accepted q t rows.old }
    requires call_bound { q.call < 22 }
    ensures { Does t rows.old (effect q) result rows.new }
{
    match Call::try_from(q.call) {
        Ok(Call::CreateThread) => threads::create_thread(t, q),
        Ok(Call::Start) => threads::start(t, rows, q),
        Ok(Call::Stop) => threads::stop(t, rows, q),
        Ok(Call::Exit) => threads::exit(t, rows, q),
        Ok(Call::Yield) => threads::yields(t, rows, q),
        Ok(Call::Sleep) => threads::sleep(t, rows, q),
        Ok(Call::SetPriority) => threads::set_priority(t, rows, q),
        Ok(Call::SetQuantum) => threads::set_quantum(t, q),
        Ok(Call::CreateSemaphore) => semaphores::create_semaphore(t, q),
        Ok(Call::Pend) => semaphores::pend(t, rows, q),
        Ok(Call::Post) => semaphores::post(t, rows, q),
        Ok(Call::CreateMutex) => mutexes::create_mutex(t, q),
        Ok(Call::Claim) => mutexes::claim(t, rows, q),
        Ok(Call::Release) => mutexes::release(t, rows, q),
        Ok(Call::CreateFlags) => flags::create_flags(t, q),
        Ok(Call::Wait) => flags::wait(t, rows, q),
        Ok(Call::Set) => flags::set(t, rows, q),
        Ok(Call::Clear) => flags::clear(t, rows, q),
        Ok(Call::StartTimer) => timers::start_timer(t, q),
        Ok(Call::StopTimer) => timers::stop_timer(t, q),
        Ok(Call::Scheduling) => scheduling::scheduling(t, q),
        // Neither is accepted where no time passes.
        Ok(Call::Advance) => t,
        Err(_) => t,
    }
}

// The effect, then the choice (01, Calls, on choosing).
fn perform(t: Table, rows: &mut [[u8; 16]; 8], q: Request) -> Table
    requires accepted { Accepted q t rows.old }
    requires call_bound { q.call < 22 }
    ensures { Does t rows.old (perform true (numbered q.call) q) result rows.new }
{
    let u = effect(t, rows, q);
    let all = *rows;
    choosing::choose(u, all)
}

// A refusal leaves the table and the rows as they were.
fn next_table(t: Table, rows: &mut [[u8; 16]; 8], q: Request, a: Answer) -> Table
    requires rows_value { sound_table t rows.old ≡ true }
    requires a_value { (a ≡ judge (numbered q.call) q (view t rows.old)) × ((q.call ≡ 22) → ⊥) }
    ensures { Does t rows.old (next_state a q) result rows.new }
{
    if numbers::is_accepted(a) {
        perform(t, rows, q)
    } else {
        t
    }
}

// What is told of a table beside an answer to a call on it.
pub fn report(t: Table, answer: Answer, wakeups: u32, next: u32) -> Report
    ensures { result ≡ record { answer = answer; chosen = t.chosen; clock = t.clock; wakeups = wakeups; next = next } }
{
    Report {
        answer,
        chosen: t.chosen,
        clock: t.clock,
        wakeups,
        next,
    }
}

// What a call hands back: the table, and what is told of it.
pub fn reply(t: Table, answer: Answer, wakeups: u32, next: u32) -> Reply
    ensures { result ≡ record { report = record { answer = answer; chosen = t.chosen; clock = t.clock; wakeups = wakeups; next = next }; table = t } }
{
    Reply {
        report: report(t, answer, wakeups, next),
        table: t,
    }
}

// A call in which no time passes, on a sound table: its answer, what is reported beside it, and the table and rows handed back.
pub fn untimed(t: Table, rows: &mut [[u8; 16]; 8], q: Request) -> Reply
    requires rows_value { sound_table t rows.old ≡ true }
    requires fact { (q.call ≡ 22) → ⊥ }
    ensures { record { reply = result; rows = rows.new } ≡ laid (call (view t rows.old) q) }
{
    let before = *rows;
    let answer = refusals::answer(t, before, q);
    let u = next_table(t, rows, q, answer);
    let next = next::next_wake_up(u);
    reply(u, answer, 0, next)
}
