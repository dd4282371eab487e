// The text of a replay's lines (01, Replay file), each put behind what stands in a buffer already. The caller sees to the room. It is put by
// hand: clauses of `write!` speak of what was written where it answers Ok, and none says that it does, while a line here can't fail.
#![tactic(auto)]

ghost use Rattle.std.specs.Prelude.{◌≡◌, ◌++◌, ◌+◌, ◌≤◌, length, take, drop};
ghost use Rattle.model.specs.Replay.{numbers, bad_record};
ghost use Rattle.text.specs.Text.{followed, line_text};

const SPACE: u8 = b' ';

const LINE_FEED: u8 = b'\n';

const BAD_RECORD_AT: [u8; 14] = *b"bad record at ";

// n in decimal, and one byte behind it.
fn put_number(out: &mut [u8], at: usize, n: u64, byte: u8) -> usize
    requires { at + 21 ≤ length out.old }
    ensures room { (at ≤ result) × (result ≤ at + 21) }
    ensures text { take result out.new ≡ take at out.old ++ followed n byte }
    ensures rest { drop result out.new ≡ drop result out.old }
{
    let mut digits = [0u8; 20];
    let k = io::decimal(n, &mut digits);
    let end = at + k;
    out[at..end].copy_from_slice(&digits[..k]);
    out[end] = byte;
    end + 1
}

// The line of a record: four numbers.
pub fn put_numbers(out: &mut [u8], at: usize, a: u32, b: u32, c: u32, d: u32) -> usize
    requires { at + 84 ≤ length out.old }
    ensures room { (at ≤ result) × (result ≤ at + 84) }
    ensures text { take result out.new ≡ take at out.old ++ line_text (numbers a b c d) }
    ensures rest { drop result out.new ≡ drop result out.old }
{
    let p = put_number(out, at, u64::from(a), SPACE);
    let q = put_number(out, p, u64::from(b), SPACE);
    let r = put_number(out, q, u64::from(c), SPACE);
    put_number(out, r, u64::from(d), LINE_FEED)
}

// The line of a bad record: the offset of its first byte.
pub fn put_bad_record(out: &mut [u8], at: usize, offset: u64) -> usize
    requires { at + 35 ≤ length out.old }
    ensures room { (at ≤ result) × (result ≤ at + 35) }
    ensures text { take result out.new ≡ take at out.old ++ line_text (bad_record offset) }
    ensures rest { drop result out.new ≡ drop result out.old }
{
    let end = at + BAD_RECORD_AT.len();
    out[at..end].copy_from_slice(&BAD_RECORD_AT);
    put_number(out, end, offset, LINE_FEED)
}
