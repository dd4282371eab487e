// Tests of a request's numbers by themselves (01, Answers, 4).
ghost use Rattle.std.specs.Prelude.{◌≡◌, ◌&&◌, eqb, leb};
ghost use Rattle.model.specs.Ranges.{is_positive_16, fits_32, is_positive_32};
ghost use Rattle.model.specs.Calls.{unused_abcd, unused_bcd, unused_cd};

use model::modes::Mode;
use model::requests::Request;

pub fn unused_cd(q: Request) -> bool
    ensures { result ≡ unused_cd q }
{
    (q.c == 0) & (q.d == 0)
}

pub fn unused_bcd(q: Request) -> bool
    ensures { result ≡ unused_bcd q }
{
    (q.b == 0) & unused_cd(q)
}

pub fn unused_abcd(q: Request) -> bool
    ensures { result ≡ unused_abcd q }
{
    (q.a == 0) & unused_bcd(q)
}

// A limit or a span, which may be any number of 32 bits, and nothing else.
pub fn limit_only(q: Request) -> bool
    ensures { result ≡ (fits_32 q.a && unused_bcd q) }
{
    unused_bcd(q)
}

// Masks and maxima.
pub fn is_positive_16(x: u32) -> bool
    ensures { result ≡ is_positive_16 x }
{
    (0 < x) & (x <= 65535)
}

// Ticks to sleep and periods.
pub fn is_positive_32(x: u32) -> bool
    ensures { result ≡ is_positive_32 x }
{
    0 < x
}

// A mask, a mode, any limit, and nothing else.
pub fn wait_fits(q: Request) -> bool
    ensures { result ≡ (is_positive_16 q.a && leb q.b 3 && fits_32 q.c && eqb q.d 0) }
{
    is_positive_16(q.a) & Mode::try_from(q.b).is_ok() & (q.d == 0)
}
