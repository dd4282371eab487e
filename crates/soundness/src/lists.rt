// The lists as they are stored: length, ids, and zeros past the end.
ghost use Rattle.std.specs.Prelude.{◌≡◌, [], get_or};
ghost use Rattle.sequences.specs.Lists.{every_below};
ghost use Rattle.model.specs.Before.{list_at};
ghost use Rattle.soundness.specs.Lists.{list_fits, wait_list_fits, tops};

use model::lists::LIST_COUNT;
use model::tables::IdList;

// The highest id that a place may hold, for the sixteen places of any list: those of a list of length n begin at 16 - n. A test of sixteen
// places against sixteen numbers is one step for the processor.
pub const MOST: [u8; 32] = [
    15, 15, 15, 15, 15, 15, 15, 15, 15, 15, 15, 15, 15, 15, 15, 15, 0, 0, 0, 0, 0, 0, 0, 0, 0, 0,
    0, 0, 0, 0, 0, 0,
];

// A place before the end holds a thread's id, and one past it 0. A fold, since `all` stops at the first that fails: with it all of soundness takes
// twice as long.
pub fn list_fits(ids: [u8; 16], n: usize, most: &[u8; 32]) -> bool
    requires { most.now ≡ tops }
    ensures { result ≡ list_fits n ids }
{
    if 16 < n {
        return false;
    }
    let first = 16 - n;
    (0..16).fold(true, |fits, k| fits & (ids[k] <= most[first + k]))
}

pub fn ready_lists_fit(rows: [[u8; 16]; 8], lengths: [u8; 8], most: &[u8; 32]) -> bool
    requires { most.now ≡ tops }
    ensures { result ≡ every_below 8 (λ p. list_fits (get_or lengths p 0) (get_or rows p [])) }
{
    (0..8).all(|p| list_fits(rows[p], lengths[p] as usize, most))
}

pub fn wait_lists_fit(waits: [IdList; 18], most: &[u8; 32]) -> bool
    requires { most.now ≡ tops }
    ensures { result ≡ every_below 18 (λ j. wait_list_fits (list_at waits j)) }
{
    waits
        .iter()
        .all(|l| list_fits(l.ids, l.length as usize, most))
}
