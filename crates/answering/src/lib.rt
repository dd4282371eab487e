// The answer of every call on a table that can be read: which refusals are due, and which of them is given (01, Answers, and each
// call's row). The order of the answers stands in `rules::due` and nowhere else. Nothing is changed here.
#![tactic(auto, unfolding(model::specs::Kernel::judge))]

ghost use Rattle.std.specs.Prelude.{◌≡◌};
ghost use Rattle.model.specs.Calls.{numbered};
ghost use Rattle.model.specs.Kernel.{judge};

use crate::readable::Readable;
use model::answers::Answer;
use model::calls::Call;
use model::requests::Request;
use rules::scheduling;
use rules::timers::stop_timer;

mod flags;
mod mutexes;
pub mod readable;
mod semaphores;
mod threads;
mod timers;

// Which calls there are, and whose answer each is.
pub fn answer<T: Readable>(t: &T, q: Request) -> Answer
    requires { T.readable t.now }
    ensures { result ≡ judge (numbered q.call) q (T.state t.now) }
{
    match Call::try_from(q.call) {
        Ok(Call::CreateThread) => threads::create_thread(t, q),
        Ok(Call::Start) => threads::start(t, q),
        Ok(Call::Stop) => threads::stop(t, q),
        Ok(Call::Exit) => threads::exit(t, q),
        Ok(Call::Yield) => threads::yields(t, q),
        Ok(Call::Sleep) => threads::sleep(t, q),
        Ok(Call::SetPriority) => threads::set_priority(t, q),
        Ok(Call::SetQuantum) => threads::set_quantum(t, q),
        Ok(Call::CreateSemaphore) => semaphores::create_semaphore(t, q),
        Ok(Call::Pend) => semaphores::pend(t, q),
        Ok(Call::Post) => semaphores::post(t, q),
        Ok(Call::CreateMutex) => mutexes::create_mutex(t, q),
        Ok(Call::Claim) => mutexes::claim(t, q),
        Ok(Call::Release) => mutexes::release(t, q),
        Ok(Call::CreateFlags) => flags::create_flags(t, q),
        Ok(Call::Wait) => flags::wait(t, q),
        Ok(Call::Set) | Ok(Call::Clear) => flags::change(t, q),
        Ok(Call::StartTimer) => timers::start_timer(t, q),
        Ok(Call::StopTimer) => stop_timer(q),
        Ok(Call::Scheduling) => scheduling::scheduling(q),
        Ok(Call::Advance) => scheduling::advance(q),
        Err(_) => Answer::NoCall,
    }
}
