// One walk over the lists: what each asks of the threads on it, and on how many lists each thread stands. A list's ids are gone over once.
ghost use Rattle.std.specs.Prelude.{◌≡◌, true, [], ◌∷◌, map, ◌+◌, ◌-◌, ◌≤◌, ltb, take, get_or};
ghost use Rattle.std.proofs.Math.Seq.{slice};
ghost use Rattle.sequences.specs.Lists.{every_below, take_each};
ghost use Rattle.model.specs.State.{absent_flags};
ghost use Rattle.model.specs.Before.{ids_of, list_at};
ghost use Rattle.soundness.specs.Lists.{list_fits, wait_list_fits, member_fits, list_asks, of_ready, of_object, of_flags, CountsUpTo, Walked};
ghost use Rattle.soundness.specs.Members.{kind_of, mark_of};

use model::lists::FLAGS_LIST;
use model::modes::Mode;
use model::tables;
use model::tables::{IdList, Thread};

// Who stands on a list: by it the list asks something of them. A ready list has a priority, a flag object's its word.
#[derive(Clone, Copy)]
pub enum Members {
    Ready(u8),
    Sleep,
    Stopped,
    Object,
    Flags(u16),
}

pub fn member_fits(members: Members, t: Thread) -> bool
    ensures { result ≡ member_fits (kind_of members) (mark_of members) t }
{
    match members {
        Members::Ready(priority) => t.current == priority,
        Members::Sleep => 0 < t.limit,
        Members::Stopped | Members::Object => true,
        Members::Flags(word) => {
            let met = rules::conditions::holds(t.mode, t.mask, word);
            !met & ((0 < t.mask) & (t.mode <= Mode::AllClear as u8))
        }
    }
}

// Of these lists none asks anything of the order.
fn in_any_order(members: Members) -> bool
    ensures { result ≡ ltb (kind_of members) of_object }
{
    match members {
        Members::Ready(_) | Members::Sleep | Members::Stopped => true,
        Members::Object | Members::Flags(_) => false,
    }
}

// On an object's list each has at most the current priority of the one before it.
pub fn walk_ids(
    counts: &mut [u16; 16],
    ids: [u8; 16],
    n: usize,
    threads: &[Thread; 16],
    members: Members,
) -> bool
    requires ids_value { list_fits n ids ≡ true }
    requires counts_up_to { CountsUpTo 60000 counts.old }
    ensures { Walked counts.old (list_asks (kind_of members) (mark_of members) threads.now (take n ids)) (take n ids ∷ []) result counts.new }
{
    let any_order = in_any_order(members);
    let mut fits = true;
    let mut before: u8 = 0;
    for k in 0..n {
        let i = ids[k] as usize;
        let t = threads[i];
        fits = fits & (member_fits(members, t) & (any_order | (k == 0) | (t.current <= before)));
        before = t.current;
        counts[i] += 1;
    }
    fits
}

pub fn walk_ready(
    counts: &mut [u16; 16],
    rows: [[u8; 16]; 8],
    lengths: [u8; 8],
    threads: &[Thread; 16],
) -> bool
    requires p_value { every_below 8 (λ p. list_fits (get_or lengths p 0) (get_or rows p [])) ≡ true }
    requires counts_up_to { CountsUpTo 10000 counts.old }
    ensures { Walked counts.old (every_below 8 (λ p. list_asks of_ready p threads.now (take (get_or lengths p 0) (get_or rows p [])))) (take_each lengths rows) result counts.new }
{
    let mut fits = true;
    for p in 0..8 {
        let members = Members::Ready(p as u8);
        let one = walk_ids(counts, rows[p], lengths[p] as usize, threads, members);
        fits = fits & one;
    }
    fits
}

pub fn walk_waits(
    counts: &mut [u16; 16],
    waits: &[IdList; 18],
    from: usize,
    to: usize,
    threads: &[Thread; 16],
    members: Members,
) -> bool
    requires j_value { every_below 18 (λ j. wait_list_fits (list_at waits.now j)) ≡ true }
    requires from_le_to { (from ≤ to) × (to ≤ 18) }
    requires counts_up_to { CountsUpTo 10000 counts.old }
    ensures { Walked counts.old (every_below (to - from) (λ k. list_asks (kind_of members) (mark_of members) threads.now (ids_of (list_at waits.now (from + k))))) (slice from to (map ids_of waits.now)) result counts.new }
{
    let mut fits = true;
    for l in &waits[from..to] {
        let one = walk_ids(counts, l.ids, l.length as usize, threads, members);
        fits = fits & one;
    }
    fits
}

pub fn walk_flags(
    counts: &mut [u16; 16],
    waits: &[IdList; 18],
    threads: &[Thread; 16],
    flags: [tables::Flags; 4],
) -> bool
    requires j_value { every_below 18 (λ j. wait_list_fits (list_at waits.now j)) ≡ true }
    requires counts_up_to { CountsUpTo 10000 counts.old }
    ensures { Walked counts.old (every_below 4 (λ o. list_asks of_flags (get_or flags o absent_flags).word threads.now (ids_of (list_at waits.now (14 + o))))) (slice 14 18 (map ids_of waits.now)) result counts.new }
{
    let mut fits = true;
    for o in 0..4 {
        let l = waits[FLAGS_LIST + o];
        let members = Members::Flags(flags[o].word);
        let one = walk_ids(counts, l.ids, l.length as usize, threads, members);
        fits = fits & one;
    }
    fits
}
