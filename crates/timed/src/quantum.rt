// The quantum of the running thread (01, One tick, 2).
ghost use Rattle.std.specs.Prelude.{◌≡◌, ◌≤◌, true};
ghost use Rattle.model.specs.Parts.{thread};
ghost use Rattle.model.specs.Words.{choice};
ghost use Rattle.model.specs.Tick.{quantum_counts};
ghost use Rattle.model.specs.Layout.{view};
ghost use Rattle.rules.specs.Counting.{place};
ghost use Rattle.theorems.specs.Leap.{spend};
ghost use Rattle.words.specs.Images.{Whole, Does};
ghost use Rattle.timed.specs.Counters.{running};
ghost use Rattle.timed.specs.Turns.{turn_over, take_turns};

use fields::places::{FIRSTS, Image};
use fields::{head, threads};
use rules::counting;
use words::waking;

// Less by m; the quantum counts, and so much is left of it.
pub fn spend(image: &mut Image, m: u32)
    requires whole { Whole image.old }
    requires image_value { (quantum_counts (view image.old) ≡ true) × (m ≤ (thread (view image.old).chosen (view image.old)).left) }
    ensures { Does image.old (spend m) image.new }
{
    let c = head::chosen(image) as usize;
    let left = threads::left(image, c) as u32;
    threads::set_left(image, c, (left - m) as u16);
}

// Behind all others of its priority, with the whole quantum again.
pub fn turn_over(image: &mut Image)
    requires whole { Whole image.old }
    requires image_value { (quantum_counts (view image.old) ≡ true) × (choice (view image.old) ≡ (view image.old).chosen) }
    ensures { Does image.old turn_over image.new }
{
    let c = head::chosen(image) as usize;
    let all = threads::quantum(image, c);
    threads::set_left(image, c, all);
    let p = threads::current(image, c) as usize;
    waking::become_ready(image, p, c);
}

// And the choice, where nothing else happens: it falls on who heads the list then. Hands back the place of the end of that thread's quantum.
pub fn take_turns(image: &mut Image) -> u32
    requires whole { Whole image.old }
    requires image_value { (quantum_counts (view image.old) ≡ true) × (choice (view image.old) ≡ (view image.old).chosen) }
    ensures image { Does image.old take_turns image.new }
    ensures quantum { result ≡ place (running (view image.new)) }
{
    let c = head::chosen(image) as usize;
    let p = threads::current(image, c) as usize;
    turn_over(image);
    let heir = image[FIRSTS + p] - 1;
    let i = heir as usize;
    let all = threads::quantum(image, i);
    threads::set_left(image, i, all);
    head::set_chosen(image, heir);
    counting::place(all as u32)
}
