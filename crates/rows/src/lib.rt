// Row writers: each writes one row of a point's part p, with the count that it changes, and nothing else. A `requires`
// here is met by every caller: a part is long enough, and counts and numbers have been tested.
#![tactic(auto)]

ghost use Rattle.std.specs.Prelude.{◌≡◌, ◌++◌, ◌+◌, ◌<◌, ◌≤◌, ◌^◌, pos, negsuc, length, set, take, drop};
ghost use Rattle.numbers.specs.InnerEnergies.{energy_of};
ghost use Rattle.lists.specs.InnerWell.{FactsOk};
ghost use Rattle.layout.specs.Places.{recs_place, rec_place};
ghost use Rattle.layout.specs.InnerWrites.{cleared, put_record, append_record, cut_records, append_registration, cut_registrations, open_span, close_span, set_pending, clear_pending, open_point};
ghost use Rattle.rows.specs.InnerRows.{record_of, SmallRecord};

use daybook::Facts;

// A record, its energy raised by 1,000,000. Its type is a number, as it stands in the table.
#[derive(Clone, Copy)]
pub struct Record {
    pub start: u64,
    pub end: u64,
    pub energy: u64,
    pub type_: u64,
}

// An energy, raised by 1,000,000.
fn put_energy(p: &mut [i64], i: usize, u: u64)
    requires { (i < length p.old) × (u < 2 ^ 63) }
    ensures { p.new ≡ set p.old i (energy_of u) }
{
    p[i] = numbers::unbias(u);
}

// -1, where a span has no on day yet.
pub fn put_no_day(p: &mut [i64], i: usize)
    requires { i < length p.old }
    ensures { p.new ≡ set p.old i (negsuc 0) }
{
    p[i] = -1;
}

// Two numbers, at places i and i + 1.
pub fn put_pair(p: &mut [i64], i: usize, x: u64, y: u64)
    requires { (i + 1 < length p.old) × (x < 2 ^ 63) × (y < 2 ^ 63) }
    ensures { p.new ≡ set (set p.old i (pos x)) (i + 1) (pos y) }
{
    numbers::put(p, i, x);
    numbers::put(p, i + 1, y);
}

// The n places from a on, by the layout's word (`cleared`).
pub fn clear(p: &mut [i64], a: usize, n: usize)
    requires { a + n ≤ length p.old }
    ensures { p.new ≡ cleared p.old a n }
{
    p[a..a + n].fill(0);
}

// The first n numbers of another part or table, in the words of the layout's laws.
pub fn copy_first(p: &mut [i64], from: &[i64], n: usize)
    requires { (n ≤ length p.old) × (n ≤ length from.now) }
    ensures { p.new ≡ take n from.now ++ drop n p.old }
{
    p[..n].copy_from_slice(&from[..n]);
}

// Record j.
#[tactic(auto, unfolding(layout::specs::InnerWrites::put_record))]
pub fn put_record(p: &mut [i64], j: usize, r: Record)
    requires { (rec_place (j + 1) ≤ length p.old) × SmallRecord r }
    ensures { p.new ≡ put_record p.old j (record_of r) }
{
    let at = places::RECS + places::REC_LENGTH * j;
    put_pair(p, at, r.start, r.end);
    put_energy(p, at + 2, r.energy);
    numbers::put(p, at + 3, r.type_);
}

// One more record, after n.
#[tactic(auto, unfolding(layout::specs::InnerWrites::append_record))]
pub fn append_record(p: &mut [i64], n: usize, r: Record)
    requires { (rec_place (n + 1) ≤ length p.old) × SmallRecord r }
    ensures { p.new ≡ append_record p.old n (record_of r) }
{
    put_record(p, n, r);
    numbers::put(p, places::REC_COUNT, n as u64 + 1);
}

// Of n records the first j are left.
#[tactic(auto, unfolding(layout::specs::InnerWrites::cut_records))]
pub fn cut_records(p: &mut [i64], j: usize, n: usize)
    requires { (j ≤ n) × (rec_place n ≤ length p.old) }
    ensures { p.new ≡ cut_records p.old j n }
{
    clear(
        p,
        places::RECS + places::REC_LENGTH * j,
        places::REC_LENGTH * (n - j),
    );
    numbers::put(p, places::REC_COUNT, j as u64);
}

// One more registration, after n.
#[tactic(auto, unfolding(layout::specs::InnerWrites::append_registration))]
pub fn append_registration(p: &mut [i64], n: usize, day: u64, user: u64)
    requires { (n < 8) × (recs_place ≤ length p.old) × (day < 2 ^ 63) × (user < 2 ^ 63) }
    ensures { p.new ≡ append_registration p.old n day user }
{
    put_pair(p, places::REGS + places::REG_LENGTH * n, day, user);
    numbers::put(p, places::REG_COUNT, n as u64 + 1);
}

// Of n registrations the first j are left.
#[tactic(auto, unfolding(layout::specs::InnerWrites::cut_registrations))]
pub fn cut_registrations(p: &mut [i64], j: usize, n: usize)
    requires { (j ≤ n) × (n ≤ 8) × (recs_place ≤ length p.old) }
    ensures { p.new ≡ cut_registrations p.old j n }
{
    clear(
        p,
        places::REGS + places::REG_LENGTH * j,
        places::REG_LENGTH * (n - j),
    );
    numbers::put(p, places::REG_COUNT, j as u64);
}

// One more off span, after n; its on day is -1 until it has one.
#[tactic(auto, unfolding(layout::specs::InnerWrites::open_span))]
pub fn open_span(p: &mut [i64], n: usize, off: u64)
    requires { (n < 8) × (recs_place ≤ length p.old) × (off < 2 ^ 63) }
    ensures { p.new ≡ open_span p.old n off }
{
    let at = places::OFFS + places::OFF_LENGTH * n;
    numbers::put(p, at, off);
    put_no_day(p, at + 1);
    numbers::put(p, places::OFF_COUNT, n as u64 + 1);
}

#[tactic(auto, unfolding(layout::specs::InnerWrites::close_span))]
pub fn close_span(p: &mut [i64], k: usize, on: u64)
    requires { (k < 8) × (recs_place ≤ length p.old) × (on < 2 ^ 63) }
    ensures { p.new ≡ close_span p.old k on }
{
    numbers::put(p, places::OFFS + places::OFF_LENGTH * k + 1, on);
}

#[tactic(auto, unfolding(layout::specs::InnerWrites::set_pending))]
pub fn set_pending(p: &mut [i64], user: u64, first: u64, last: u64)
    requires { (recs_place ≤ length p.old) × (user < 2 ^ 63) × (first < 2 ^ 63) × (last < 2 ^ 63) }
    ensures { p.new ≡ set_pending p.old user first last }
{
    put_pair(p, places::PENDING_USER, user, first);
    numbers::put(p, places::PENDING_LAST, last);
}

pub fn clear_pending(p: &mut [i64])
    requires { recs_place ≤ length p.old }
    ensures { p.new ≡ clear_pending p.old }
{
    set_pending(p, 0, 0, 0);
}

// A point's facts and its first registration, in a part that holds zeros.
#[tactic(auto, unfolding(layout::specs::InnerWrites::open_point))]
pub fn open_point(p: &mut [i64], f: Facts, user: u64)
    requires { (recs_place ≤ length p.old) × FactsOk f × (user < 2 ^ 63) }
    ensures { p.new ≡ open_point p.old f user }
{
    put_pair(p, places::MIRN, f.mirn, f.kind);
    put_pair(p, places::INSTALL, f.install, f.base);
    put_pair(p, places::SECTION, f.section, f.operator);
    append_registration(p, 0, f.install, user);
}
