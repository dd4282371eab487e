// The calls in which no time passes, 1 to 21, in place on a sound image: the answer, where it accepts the effect and then the choice, and the
// report; and a fresh image, and the next wake-up.
#![tactic(auto)]

ghost use Rattle.std.specs.Prelude.{◌≡◌, true, ◌<◌};
ghost use Rattle.model.specs.Calls.{numbered};
ghost use Rattle.model.specs.Kernel.{judge, perform, next_state, call};
ghost use Rattle.model.specs.Layout.{view, lay, sound_image};
ghost use Rattle.theorems.specs.Allowed.{Accepted};
ghost use Rattle.theorems.specs.Effect.{effect};
ghost use Rattle.words.specs.Images.{Whole, Does};

use effects::{scheduling, threads, timers};
use fields::head;
use fields::places::Image;
use model::answers::{Answer, Report};
use model::calls::Call;
use model::requests::Request;
use rules::numbers;
use serving::{flags, mutexes, semaphores};
use words::choosing;

pub mod fresh;
pub mod next;

// Time passes by other words, and what has no number has no effect.
#[tactic(auto, unfolding(model::specs::Kernel::judge, theorems::specs::Effect::effect_of, theorems::specs::Effect::effect_by))]
fn effect(image: &mut Image, q: Request)
    requires whole { Whole image.old }
    requires accepted { Accepted q (view image.old) }
    ensures { Does image.old (effect q) image.new }
{
    match Call::try_from(q.call) {
        Ok(Call::CreateThread) => threads::create_thread(image, q),
        Ok(Call::Start) => threads::start(image, q),
        Ok(Call::Stop) => threads::stop(image, q),
        Ok(Call::Exit) => threads::exit(image, q),
        Ok(Call::Yield) => threads::yields(image, q),
        Ok(Call::Sleep) => threads::sleep(image, q),
        Ok(Call::SetPriority) => threads::set_priority(image, q),
        Ok(Call::SetQuantum) => threads::set_quantum(image, q),
        Ok(Call::CreateSemaphore) => semaphores::create_semaphore(image, q),
        Ok(Call::Pend) => semaphores::pend(image, q),
        Ok(Call::Post) => semaphores::post(image, q),
        Ok(Call::CreateMutex) => mutexes::create_mutex(image, q),
        Ok(Call::Claim) => mutexes::claim(image, q),
        Ok(Call::Release) => mutexes::release(image, q),
        Ok(Call::CreateFlags) => flags::create_flags(image, q),
        Ok(Call::Wait) => flags::wait(image, q),
        Ok(Call::Set) => flags::set(image, q),
        Ok(Call::Clear) => flags::clear(image, q),
        Ok(Call::StartTimer) => timers::start_timer(image, q),
        Ok(Call::StopTimer) => timers::stop_timer(image, q),
        Ok(Call::Scheduling) => scheduling::scheduling(image, q),
        Ok(Call::Advance) | Err(_) => {}
    }
}

// The effect, then the choice (01, Calls, on choosing).
fn perform(image: &mut Image, q: Request)
    requires whole { Whole image.old }
    requires accepted { Accepted q (view image.old) }
    requires call_bound { q.call < 22 }
    ensures { Does image.old (perform true (numbered q.call) q) image.new }
{
    effect(image, q);
    choosing::choose(image);
}

// A refusal writes nothing.
fn carry_out(image: &mut Image, q: Request, a: Answer)
    requires image_value { sound_image image.old ≡ true }
    requires a_value { (a ≡ judge (numbered q.call) q (view image.old)) × ((q.call ≡ 22) → ⊥) }
    ensures { Does image.old (next_state a q) image.new }
{
    if numbers::is_accepted(a) {
        perform(image, q);
    }
}

// The report, with what the image holds; and of an image on loan each number is a byte, so that its view tells them all.
pub fn told(image: &Image, answer: Answer, wakeups: u32, next: u32) -> Report
    requires { Whole image.now }
    ensures report { result ≡ record { answer = answer; chosen = (view image.now).chosen; clock = (view image.now).clock; wakeups = wakeups; next = next } }
    ensures laid { image.now ≡ lay (view image.now) }
{
    Report {
        answer,
        chosen: head::chosen(image),
        clock: head::clock(image),
        wakeups,
        next,
    }
}

// A call in which no time passes, on a sound image: its answer, what is reported beside it, and the image after it.
pub fn untimed(image: &mut Image, q: Request) -> Report
    requires image_value { sound_image image.old ≡ true }
    requires fact { (q.call ≡ 22) → ⊥ }
    ensures report { result ≡ (call (view image.old) q).report }
    ensures image { image.new ≡ lay (call (view image.old) q).after }
{
    let answer = judging::answer(image, q);
    carry_out(image, q, answer);
    let next = next::next_wake_up(image);
    told(image, answer, 0, next)
}
