// Soundness of one point's part of the register table. A part of any length is tested: how many records it holds is
// said by its length. Counts are tested first, so that every row that is read lies in the part. Rows are read in order,
// each once or twice; the spans, once tested, a second time beside the records, with a cursor on the next one.
#![tactic(auto)]

ghost use Rattle.std.specs.Prelude.{◌≡◌, true, ◌+◌, ◌%◌, ◌<◌, ◌≤◌, ◌^◌, length};
ghost use Rattle.layout.specs.Places.{install_place, recs_place, off_place, rec_place};
ghost use Rattle.layout.specs.Layout.{num_at, facts_at};
ghost use Rattle.layout.specs.Sound.{facts_sound, counts_sound, unused_zero, part_sound};
ghost use Rattle.point.specs.InnerTests.{Counted, regs_ok, spans_ok, recs_ok};
ghost use Rattle.soundness.specs.InnerPart.{off_from, rec_on, pending_ok, rows_ok};

fn counts_sound(p: &[i64]) -> bool
    requires { recs_place ≤ length p.now }
    ensures { result ≡ counts_sound p.now }
{
    let regs = places::registrations(p);
    let room = (p.len() - places::RECS) / places::REC_LENGTH;
    (1 <= regs) & (regs <= 8) & (places::spans(p) <= 8) & (places::records(p) <= room)
}

fn facts_sound(p: &[i64]) -> bool
    requires { recs_place ≤ length p.now }
    ensures { result ≡ facts_sound (facts_at p.now) }
{
    let mirn = places::mirn(p);
    let numbered = (1 <= mirn) & (mirn <= 9999999999);
    numbered
        & (places::kind(p) <= 1)
        & (places::install(p) <= 39999)
        & (places::base(p) <= 10000)
        & (places::section(p) <= 1)
        & (numbers::get(p, places::OPERATOR) <= 4)
}

// Spare places, unused rows and, without a pending User, the pending request.
fn unused_zero(p: &[i64]) -> bool
    requires { Counted p.now }
    ensures { result ≡ unused_zero p.now }
{
    let regs = places::REGS + places::REG_LENGTH * places::registrations(p);
    let spans = places::OFFS + places::OFF_LENGTH * places::spans(p);
    let recs = places::RECS + places::REC_LENGTH * places::records(p);
    let zero = point::zeros_in(p, places::SPARE, places::REGS)
        & point::zeros_in(p, regs, places::OFFS)
        & point::zeros_in(p, spans, places::RECS)
        & point::zeros_in(p, recs, p.len());
    if places::pending_user(p) == 0 {
        return zero & point::zeros_in(p, places::PENDING_USER, places::PENDING_END);
    }
    zero
}

// The first of n registrations starts on the install day, each other one after the one before it with another User.
fn registrations_ok(p: &[i64], n: usize) -> bool
    requires { (n ≤ 8) × (recs_place ≤ length p.now) }
    ensures { result ≡ regs_ok p.now n }
{
    let install = places::install(p);
    if places::reg_start(p, 0) != install {
        return false;
    }
    let mut lo = install;
    let mut latest = 0;
    for k in 0..n {
        let i = places::REGS + places::REG_LENGTH * k;
        let start = point::bits_at(p, i);
        let user = point::bits_at(p, i + 1);
        if !((lo <= start) & (start <= 40000) & (1 <= user) & (user <= 16) & (latest != user)) {
            return false;
        }
        lo = start + 1;
        latest = user;
    }
    true
}

// Each of n spans begins after the one before it has ended, and only the last is still off.
fn spans_ok(p: &[i64], n: usize) -> bool
    requires { (n ≤ 8) × (recs_place ≤ length p.now) }
    ensures { result ≡ spans_ok p.now n }
{
    let mut lo = places::install(p);
    for k in 0..n {
        let off = places::off_day(p, k);
        let on = point::on_day(p, k);
        if !((lo <= off) & (off <= 39999) & (off < on) & (on <= 40001)) {
            return false;
        }
        lo = on + 1;
    }
    true
}

// The off day of span j; past the last of m a number above every day.
fn off_from(p: &[i64], m: usize, j: usize) -> u64
    requires { off_place m ≤ length p.now }
    ensures { result ≡ off_from p.now m j }
{
    if j < m {
        return places::off_day(p, j);
    }
    0xffff_ffff_ffff_ffff
}

// Record k, which is to start on a day and to end before an off day. The kind is tested by branches, not as `fits_kind`
// does: the back end then tests it once for all records.
fn record_ok(p: &[i64], kind: u64, k: usize, day: u64, off: u64) -> bool
    requires { (rec_place k + 3 < length p.now) × (day < 2 ^ 63) }
    ensures { result ≡ rec_on p.now kind k day off }
{
    let i = places::RECS + places::REC_LENGTH * k;
    let end = point::bits_at(p, i + 1);
    if !((end <= 39999)
        & (numbers::get_energy(p, i + 2) <= 2000000)
        & (numbers::get(p, i + 3) <= 2))
    {
        return false;
    }
    if !((point::bits_at(p, i) == day) & (end < off)) {
        return false;
    }
    if kind == 0 {
        if end <= day {
            return false;
        }
        return true;
    }
    if end != day {
        return false;
    }
    true
}

// Each of n records follows the one before it, beside m spans that pass. Both are read once: a record is awaited from
// `day` on, the j spans before it have ended by then, and `off` is the next off day.
fn records_ok(p: &[i64], m: usize, n: usize) -> bool
    requires { (off_place m ≤ length p.now) × (rec_place n ≤ length p.now) × (num_at p.now install_place ≤ 39999) × (spans_ok p.now m ≡ true) }
    ensures { result ≡ recs_ok p.now m n }
{
    let kind = places::kind(p);
    let mut day = places::install(p);
    let mut j: usize = 0;
    let mut off = off_from(p, m, 0);
    for k in 0..n {
        if off <= day {
            day = point::on_day(p, j);
            j += 1;
            off = off_from(p, m, j);
        }
        if !record_ok(p, kind, k, day, off) {
            return false;
        }
        day = point::bits_at(p, places::RECS + places::REC_LENGTH * k + 1) + 1;
    }
    true
}

// A pending User isn't the latest, that of the last of n registrations.
fn pending_ok(p: &[i64], n: usize) -> bool
    requires { (1 ≤ n) × (n ≤ 8) × (recs_place ≤ length p.now) }
    ensures { result ≡ pending_ok p.now n }
{
    let user = places::pending_user(p);
    let latest = places::reg_user(p, n - 1);
    let last = places::pending_last(p);
    (user == 0)
        | ((user <= 16)
            & (latest != user)
            & (places::pending_first(p) <= last)
            & (last <= 39999)
            & (n <= 7))
}

// The spans are tested before the records, which are read beside them.
fn rows_ok(p: &[i64]) -> bool
    requires { Counted p.now × (num_at p.now install_place ≤ 39999) }
    ensures { result ≡ rows_ok p.now }
{
    let regs = places::registrations(p);
    let spans = places::spans(p);
    let recs = places::records(p);
    if !spans_ok(p, spans) {
        return false;
    }
    registrations_ok(p, regs) & records_ok(p, spans, recs) & pending_ok(p, regs)
}

// Is this a sound point? The tests above decide what document 01 says (proofs/Decides.antt).
pub fn part_sound(p: &[i64]) -> bool
    requires { (recs_place ≤ length p.now) × (length p.now % 4 ≡ 0) }
    ensures { result ≡ part_sound p.now }
{
    if !counts_sound(p) {
        return false;
    }
    if !facts_sound(p) {
        return false;
    }
    unused_zero(p) & rows_ok(p)
}
