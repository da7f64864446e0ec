// The places of the register table, as document 01 has them, and what stands at single places. A `requires` here is met
// by every caller: a part is long enough, and a row is one that its count tells.
#![tactic(auto)]

ghost use Rattle.std.specs.Prelude.{◌≡◌, ◌+◌, ◌<◌, ◌≤◌, ◌^◌, pos, length, get_or};
ghost use Rattle.numbers.specs.InnerEnergies.{bias_of};
ghost use Rattle.layout.specs.Places.{points_place, nondaily_place, daily_place, header_length, mirn_place, kind_place, install_place, base_place, reg_count, off_count, rec_count, pending_user, pending_first, pending_last, section_place, recs_place, reg_place, off_place, rec_place};
ghost use Rattle.layout.specs.Layout.{num_at};

pub const TABLE_LENGTH: usize = 7688;

// The header; its places from HEADER_SPARE on are 0.
pub const POINTS: usize = 0;

pub const NONDAILY: usize = 1;

pub const DAILY: usize = 2;

pub const EDITION: usize = 3;

pub const HEADER_SPARE: usize = 4;

pub const HEADER_LENGTH: usize = 8;

// A point's part: its facts, how many rows it has, a pending request, its section and operator; the places from SPARE
// on are 0.
pub const MIRN: usize = 0;

pub const KIND: usize = 1;

pub const INSTALL: usize = 2;

pub const BASE: usize = 3;

pub const REG_COUNT: usize = 4;

pub const OFF_COUNT: usize = 5;

pub const REC_COUNT: usize = 6;

pub const PENDING_USER: usize = 7;

pub const PENDING_FIRST: usize = 8;

pub const PENDING_LAST: usize = 9;

pub const PENDING_END: usize = 10;

pub const SECTION: usize = 10;

pub const OPERATOR: usize = 11;

pub const SPARE: usize = 12;

// Then its registrations (start, User), off spans (off day, on day) and records (start, end, energy, type).
pub const REGS: usize = 16;

pub const OFFS: usize = 32;

pub const RECS: usize = 48;

pub const REG_LENGTH: usize = 2;

pub const OFF_LENGTH: usize = 2;

pub const REC_LENGTH: usize = 4;

// Each place that is read by name has a getter of its own: places::kind(p) says more at a call than one getter with
// the place as a const parameter.
pub fn points(t: &[i64]) -> usize
    requires { header_length ≤ length t.now }
    ensures { (result ≡ num_at t.now points_place) × (result ≤ 2 ^ 63) }
{
    numbers::get(t, POINTS) as usize
}

// The two ranges, each raised by 1,000,000.
pub fn nondaily(t: &[i64]) -> u64
    requires { header_length ≤ length t.now }
    ensures { result ≡ bias_of (get_or t.now nondaily_place (pos 0)) }
{
    numbers::get_energy(t, NONDAILY)
}

pub fn daily(t: &[i64]) -> u64
    requires { header_length ≤ length t.now }
    ensures { result ≡ bias_of (get_or t.now daily_place (pos 0)) }
{
    numbers::get_energy(t, DAILY)
}

pub fn mirn(p: &[i64]) -> u64
    requires { recs_place ≤ length p.now }
    ensures { (result ≡ num_at p.now mirn_place) × (result ≤ 2 ^ 63) }
{
    numbers::get(p, MIRN)
}

pub fn kind(p: &[i64]) -> u64
    requires { recs_place ≤ length p.now }
    ensures { (result ≡ num_at p.now kind_place) × (result ≤ 2 ^ 63) }
{
    numbers::get(p, KIND)
}

pub fn install(p: &[i64]) -> u64
    requires { recs_place ≤ length p.now }
    ensures { (result ≡ num_at p.now install_place) × (result ≤ 2 ^ 63) }
{
    numbers::get(p, INSTALL)
}

pub fn base(p: &[i64]) -> u64
    requires { recs_place ≤ length p.now }
    ensures { (result ≡ num_at p.now base_place) × (result ≤ 2 ^ 63) }
{
    numbers::get(p, BASE)
}

pub fn section(p: &[i64]) -> u64
    requires { recs_place ≤ length p.now }
    ensures { (result ≡ num_at p.now section_place) × (result ≤ 2 ^ 63) }
{
    numbers::get(p, SECTION)
}

// How many rows of each kind a part says that it has.
pub fn registrations(p: &[i64]) -> usize
    requires { recs_place ≤ length p.now }
    ensures { (result ≡ num_at p.now reg_count) × (result ≤ 2 ^ 63) }
{
    numbers::get(p, REG_COUNT) as usize
}

pub fn spans(p: &[i64]) -> usize
    requires { recs_place ≤ length p.now }
    ensures { (result ≡ num_at p.now off_count) × (result ≤ 2 ^ 63) }
{
    numbers::get(p, OFF_COUNT) as usize
}

pub fn records(p: &[i64]) -> usize
    requires { recs_place ≤ length p.now }
    ensures { (result ≡ num_at p.now rec_count) × (result ≤ 2 ^ 63) }
{
    numbers::get(p, REC_COUNT) as usize
}

pub fn pending_user(p: &[i64]) -> u64
    requires { recs_place ≤ length p.now }
    ensures { (result ≡ num_at p.now pending_user) × (result ≤ 2 ^ 63) }
{
    numbers::get(p, PENDING_USER)
}

pub fn pending_first(p: &[i64]) -> u64
    requires { recs_place ≤ length p.now }
    ensures { (result ≡ num_at p.now pending_first) × (result ≤ 2 ^ 63) }
{
    numbers::get(p, PENDING_FIRST)
}

pub fn pending_last(p: &[i64]) -> u64
    requires { recs_place ≤ length p.now }
    ensures { (result ≡ num_at p.now pending_last) × (result ≤ 2 ^ 63) }
{
    numbers::get(p, PENDING_LAST)
}

// Row k of each kind.
pub fn reg_start(p: &[i64], k: usize) -> u64
    requires { reg_place k < length p.now }
    ensures { (result ≡ num_at p.now (reg_place k)) × (result ≤ 2 ^ 63) }
{
    numbers::get(p, REGS + REG_LENGTH * k)
}

pub fn reg_user(p: &[i64], k: usize) -> u64
    requires { reg_place k + 1 < length p.now }
    ensures { (result ≡ num_at p.now (reg_place k + 1)) × (result ≤ 2 ^ 63) }
{
    numbers::get(p, REGS + REG_LENGTH * k + 1)
}

pub fn off_day(p: &[i64], k: usize) -> u64
    requires { off_place k < length p.now }
    ensures { (result ≡ num_at p.now (off_place k)) × (result ≤ 2 ^ 63) }
{
    numbers::get(p, OFFS + OFF_LENGTH * k)
}

pub fn rec_start(p: &[i64], k: usize) -> u64
    requires { rec_place k < length p.now }
    ensures { (result ≡ num_at p.now (rec_place k)) × (result ≤ 2 ^ 63) }
{
    numbers::get(p, RECS + REC_LENGTH * k)
}

pub fn rec_end(p: &[i64], k: usize) -> u64
    requires { rec_place k + 1 < length p.now }
    ensures { (result ≡ num_at p.now (rec_place k + 1)) × (result ≤ 2 ^ 63) }
{
    numbers::get(p, RECS + REC_LENGTH * k + 1)
}
