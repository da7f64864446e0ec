// The whole register table, of any edition that fits: is it sound, where does a point stand, what are its numbers, and
// how many records has the fullest one?
#![tactic(auto)]

ghost use Rattle.std.specs.Prelude.{◌≡◌, true, ◌<◌, ◌≤◌, length, drop, IfSome};
ghost use Rattle.numbers.specs.Rows.{all};
ghost use Rattle.numbers.specs.Search.{option_of};
ghost use Rattle.daybook.specs.Editions.{editions, edition_no};
ghost use Rattle.layout.specs.Places.{points_place, header_length};
ghost use Rattle.layout.specs.Layout.{table_length, stride as stride_of, place_of, Fits, edition_of, part_of, num_at, points_from};
ghost use Rattle.layout.specs.Sound.{part_sound, mirns_differ, sound as table_sound};
ghost use Rattle.layout.specs.InnerMirns.{later_differ};
ghost use Rattle.table.specs.InnerTable.{body_sound};
ghost use Rattle.table.specs.Lookup.{index_of, look_up};

mod register;

use daybook::Edition;
pub use register::Register;

// Where a point's part stands in a table: from its first place to past its last.
#[derive(Clone, Copy)]
pub struct Located {
    pub from: usize,
    pub to: usize,
}

// The edition of a number.
pub fn edition_of(number: u64) -> Edition
    ensures { (result ≡ edition_no editions number) × Fits result }
{
    if number == 1 {
        return Edition {
            number: 1,
            points: 16,
            records: 108,
            reserve: 2,
        };
    }
    Edition {
        number: 0,
        points: 32,
        records: 48,
        reserve: 4,
    }
}

// The edition of a table, by its header; of one that has none the standard edition.
pub fn edition(t: &[i64]) -> Edition
    ensures { (result ≡ edition_of t.now) × Fits result }
{
    if t.len() <= places::EDITION {
        return edition_of(0);
    }
    edition_of(numbers::get(t, places::EDITION))
}

// How many numbers a point has.
fn stride(ed: Edition) -> usize
    requires { Fits ed }
    ensures { (result ≡ stride_of ed) × (result ≤ 7680) }
{
    places::RECS + places::REC_LENGTH * ed.records
}

// Where point i starts.
pub fn place(ed: Edition, i: usize) -> usize
    requires { Fits ed × (i ≤ ed.points) }
    ensures { (result ≡ place_of ed i) × (result ≤ table_length) }
{
    places::HEADER_LENGTH + stride(ed) * i
}

// The numbers of point i.
pub fn part(t: &[i64], ed: Edition, i: usize) -> &[i64]
    requires { Fits ed × (i < ed.points) × (table_length ≤ length t.now) }
    ensures { result.now ≡ part_of ed t.now i }
{
    let a = place(ed, i);
    let b = place(ed, i + 1);
    &t[a..b]
}

// The MIRN of point i, which comes first.
fn mirn(t: &[i64], ed: Edition, i: usize) -> u64
    requires { Fits ed × (i < ed.points) × (table_length ≤ length t.now) }
    ensures { result ≡ num_at t.now (place_of ed i) }
{
    numbers::get(t, place(ed, i))
}

// Is the MIRN of point i that of no later point, of n?
fn later_differ(t: &[i64], ed: Edition, i: usize, n: usize) -> bool
    requires { Fits ed × (i < n) × (n ≤ ed.points) × (table_length ≤ length t.now) }
    ensures { result ≡ later_differ ed t.now n i }
{
    let own = mirn(t, ed, i);
    for j in i + 1..n {
        if mirn(t, ed, j) == own {
            return false;
        }
    }
    true
}

fn mirns_differ(t: &[i64], ed: Edition, n: usize) -> bool
    requires { Fits ed × (n ≤ ed.points) × (table_length ≤ length t.now) }
    ensures { result ≡ mirns_differ (points_from ed n (drop header_length t.now)) }
{
    for i in 0..n {
        if !later_differ(t, ed, i, n) {
            return false;
        }
    }
    true
}

fn parts_sound(t: &[i64], ed: Edition, n: usize) -> bool
    requires { Fits ed × (n ≤ ed.points) × (table_length ≤ length t.now) }
    ensures { result ≡ all (λ i. part_sound (part_of ed t.now i)) n }
{
    for i in 0..n {
        if !soundness::part_sound(part(t, ed, i)) {
            return false;
        }
    }
    true
}

// The tests of a table that is long enough and says that it has n points.
fn body_sound(t: &[i64], ed: Edition, n: usize) -> bool
    requires { Fits ed × (n ≤ ed.points) × (table_length ≤ length t.now) × (n ≡ num_at t.now points_place) }
    ensures { result ≡ body_sound ed t.now }
{
    let end = place(ed, n);
    daybook::is_range(t[places::NONDAILY])
        & daybook::is_range(t[places::DAILY])
        & (numbers::get(t, places::EDITION) == ed.number)
        & point::zeros_in(t, places::HEADER_SPARE, places::HEADER_LENGTH)
        & parts_sound(t, ed, n)
        & mirns_differ(t, ed, n)
        & point::zeros_in(t, end, places::TABLE_LENGTH)
}

// Is this a sound register of that edition? Any numbers, any length. It stays a function of its own in the machine's
// code: inlined into its one caller, its loops may be laid out so that they take a third longer.
#[inline(never)]
pub fn sound(t: &[i64], ed: Edition) -> bool
    requires { Fits ed }
    ensures { result ≡ table_sound ed t.now }
{
    if t.len() < places::TABLE_LENGTH {
        return false;
    }
    let n = places::points(t);
    if ed.points < n {
        return false;
    }
    body_sound(t, ed, n)
}

// The point of a MIRN.
pub fn index_of(t: &[i64], ed: Edition, m: u64) -> Option<usize>
    requires { Fits ed × (table_length ≤ length t.now) × (num_at t.now points_place ≤ ed.points) }
    ensures is { option_of result ≡ index_of ed t.now m }
    ensures some { IfSome result (λ i. i < ed.points) }
{
    let used = places::points(t);
    (0..used).find(|i| mirn(t, ed, *i) == m)
}

// The point of a MIRN: its part of the lent table itself, an empty part if the table is short or unsound or has no
// such point.
pub fn look_up(t: &[i64], m: i64) -> &[i64]
    ensures { result.now ≡ look_up editions t.now m }
{
    let Ok(register) = Register::of(t) else {
        return &t[0..0];
    };
    let Ok(place) = register.locate(m) else {
        return &t[0..0];
    };
    &register.table[place.from..place.to]
}
