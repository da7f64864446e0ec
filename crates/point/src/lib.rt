// Readers of one point's part of the register table: its numbers, the days of its off spans, and whether days fit its
// kind. A number that is no day reads as one above every day.
#![tactic(auto)]

ghost use Rattle.std.specs.Prelude.{◌≡◌, ◌+◌, ◌<◌, ◌≤◌, ◌^◌, length};
ghost use Rattle.daybook.specs.Notices.{fits_kind};
ghost use Rattle.layout.specs.Places.{off_place};
ghost use Rattle.layout.specs.Layout.{num_at};
ghost use Rattle.layout.specs.Sound.{zeros};
ghost use Rattle.layout.specs.InnerParts.{SoundPart};
ghost use Rattle.point.specs.InnerTests.{Bits, until_of, on_day, past, first_on, no_off};

// One point's part of a sound table, to read. What writes a part is lent its numbers, and requires the fact: it is
// known at entry alone.
#[derive(Clone, Copy)]
pub struct Part<'a> {
    pub numbers: &'a [i64],
    pub ghost is_sound: { SoundPart numbers.now },
}

// The day before which an off span ends; -1, still off, as 40,001: numbers, as `until_of` has them.
pub fn until(x: i64) -> u64
    ensures { (result ≡ until_of x) × (result ≤ 2 ^ 63) }
{
    if x == -1 {
        return 40001;
    }
    let n = numbers::natural(x);
    if n < 40000 {
        return n;
    }
    0x8000_0000_0000_0000
}

pub fn on_day(p: &[i64], k: usize) -> u64
    requires { off_place k + 1 < length p.now }
    ensures { (result ≡ on_day p.now k) × (result ≤ 2 ^ 63) }
{
    until(p[places::OFFS + places::OFF_LENGTH * k + 1])
}

// The bits of the number at place i: in a test beside days as good as the number, and read without a test of its sign.
pub fn bits_at(p: &[i64], i: usize) -> u64
    requires { i < length p.now }
    ensures { Bits (num_at p.now i) result }
{
    p[i].cast_unsigned()
}

// Are the places a to b - 1 all 0? Their bits are joined, with no way out of the loop, so that the back end takes
// several places at a time.
pub fn zeros_in(p: &[i64], a: usize, b: usize) -> bool
    requires { b ≤ length p.now }
    ensures { result ≡ zeros p.now a b }
{
    let mut bits: u64 = 0;
    for i in a..b {
        bits |= bits_at(p, i);
    }
    bits == 0
}

// The span's on day for a day in it.
fn past_span(off: u64, on: u64, d: u64) -> u64
    ensures { result ≡ past off on d }
{
    if (off <= d) & (d < on) {
        return on;
    }
    d
}

// The first day from d on that is in none of the first m spans; 40,001, above every day, if there is none.
pub fn first_on(p: &[i64], m: usize, d: u64) -> u64
    requires { off_place m ≤ length p.now }
    ensures { result ≡ first_on p.now m d }
{
    let mut x = d;
    for k in 0..m {
        x = past_span(places::off_day(p, k), on_day(p, k), x);
    }
    x
}

// Is none of the days a to b in one of the first m spans?
pub fn no_off(p: &[i64], m: usize, a: u64, b: u64) -> bool
    requires { off_place m ≤ length p.now }
    ensures { result ≡ no_off p.now m a b }
{
    for k in 0..m {
        if !((b < places::off_day(p, k)) | (on_day(p, k) <= a)) {
            return false;
        }
    }
    true
}

// A non-daily record has start < end, a daily one start = end. The kind is a number, as a part that is not tested has
// it.
pub fn fits_kind(kind: u64, start: u64, end: u64) -> bool
    ensures { result ≡ fits_kind kind start end }
{
    if kind == 0 {
        return start < end;
    }
    start == end
}
