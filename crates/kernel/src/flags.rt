// The effects of calls 15 to 18; timers set flags by the same word.
ghost use Rattle.std.specs.Prelude.{◌<◌, ◌≤◌};
ghost use Rattle.model.specs.Calls.{create_flags, wait, set, clear};
ghost use Rattle.model.specs.Effects.{create_flags_effect, wait_effect, change_word, set_flags, set_effect, clear_effect};
ghost use Rattle.model.specs.Before.{Rows};
ghost use Rattle.table.specs.Orderly.{Whole, Given, Meets, Does};
ghost use Rattle.kernel.specs.Allowed.{Allowed};
ghost use Rattle.theorems.specs.Meeting.{wake_met};

use model::lists::FLAGS_LIST;
use model::requests::Request;
use model::tables::{Flags, Table};
use rules::conditions;
use table::{storing, threads, waking};

// Call 15.
pub(crate) fn create_flags(t: Table, q: Request) -> Table
    requires { (rows : Rows) × Allowed create_flags q t rows }
    ensures { Meets t (create_flags_effect q) result }
{
    let x = Flags {
        created: 1,
        word: q.a as u16,
    };
    storing::with_flags(t, q.id as usize, x)
}

// Call 16: where the condition holds the whole word is delivered, else the running thread waits.
pub(crate) fn wait(t: Table, rows: &mut [[u8; 16]; 8], q: Request) -> Table
    requires { Allowed wait q t rows.old }
    ensures { Does t rows.old (wait_effect q) result rows.new }
{
    let o = q.id as usize;
    let mask = q.a as u16;
    let mode = q.b as u8;
    let c = t.chosen;
    let x = t.flags[o];
    if conditions::holds(mode, mask, x.word) {
        let u = threads::with_result(t, c, 1);
        threads::with_delivered(u, c, x.word)
    } else {
        waking::start_to_wait(t, rows, FLAGS_LIST + o, c, q.c, mask, mode)
    }
}

// Thread i is woken and delivered the word, where its condition holds of it.
fn wake_met(t: Table, rows: &mut [[u8; 16]; 8], i: u8, word: u16) -> Table
    requires { Given t rows.old i }
    ensures { Does t rows.old (wake_met word i) result rows.new }
{
    let x = threads::thread(t, i);
    if conditions::holds(x.mode, x.mask, word) {
        let u = threads::with_delivered(t, i, word);
        waking::wake(u, rows, i, 1)
    } else {
        t
    }
}

// First the word changes, then those it concerns are woken as they stand in the list.
fn change_word(t: Table, rows: &mut [[u8; 16]; 8], o: usize, word: u16) -> Table
    requires whole { Whole t rows.old }
    requires o_bound { o < 4 }
    ensures { Does t rows.old (change_word o word) result rows.new }
{
    let l = t.waits[FLAGS_LIST + o];
    let ids = l.ids;
    let n = l.length as usize;
    let mut x = t.flags[o];
    x.word = word;
    let mut u = storing::with_flags(t, o, x);
    for i in &ids[..n] {
        u = wake_met(u, rows, *i, word);
    }
    u
}

pub fn set_flags(t: Table, rows: &mut [[u8; 16]; 8], o: usize, mask: u16) -> Table
    requires whole { Whole t rows.old }
    requires o_bound { o < 4 }
    ensures { Does t rows.old (set_flags o mask) result rows.new }
{
    let x = t.flags[o];
    change_word(t, rows, o, x.word | mask)
}

// Call 17.
pub(crate) fn set(t: Table, rows: &mut [[u8; 16]; 8], q: Request) -> Table
    requires { Allowed set q t rows.old }
    ensures { Does t rows.old (set_effect q) result rows.new }
{
    set_flags(t, rows, q.id as usize, q.a as u16)
}

// Call 18: the bits that word and mask share are taken away.
pub(crate) fn clear(t: Table, rows: &mut [[u8; 16]; 8], q: Request) -> Table
    requires { Allowed clear q t rows.old }
    ensures { Does t rows.old (clear_effect q) result rows.new }
{
    let o = q.id as usize;
    let mask = q.a as u16;
    let x = t.flags[o];
    change_word(t, rows, o, x.word - (x.word & mask))
}
