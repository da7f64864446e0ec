// The two calls that make a register and its points: fresh empties the lent table, open adds a point behind the others.
#![tactic(auto)]

ghost use Rattle.std.specs.Prelude.{◌≡◌, ◌&&◌, ◌<◌, ◌≤◌, ◌^◌, pos, negsuc, length};
ghost use Rattle.numbers.specs.Naturals.{nat_of};
ghost use Rattle.calendar.specs.Calendar.{within, is_day};
ghost use Rattle.daybook.specs.Notices.{is_mirn, is_flag, is_user, facts_of};
ghost use Rattle.daybook.specs.Calls.{notice_numbers};
ghost use Rattle.daybook.specs.Editions.{editions};
ghost use Rattle.lists.specs.InnerWell.{FactsOk};
ghost use Rattle.layout.specs.Layout.{table_length, Fits};
ghost use Rattle.layout.specs.InnerWrites.{append_point};
ghost use Rattle.opening.specs.Opening.{fresh_call, open_call};

use daybook::{Edition, Facts, NewRegister, Opening};
use refusals::Refusal;
use table::Register;

// A register with no points, of the edition that is named, whatever numbers the table holds.
pub fn fresh(t: &mut [i64], n: NewRegister) -> Result<(), Refusal>
    ensures { (notice_numbers result ≡ (fresh_call editions t.old n).0) × (t.new ≡ (fresh_call editions t.old n).1) }
{
    if t.len() < places::TABLE_LENGTH {
        return Err(Refusal::Unsound);
    }
    let NewRegister {
        nondaily,
        daily,
        edition,
    } = n;
    let ranges = daybook::is_range(nondaily) & daybook::is_range(daily);
    if !(ranges & daybook::is_edition(edition)) {
        return Err(Refusal::OutOfRange);
    }
    rows::clear(t, 0, places::TABLE_LENGTH);
    t[places::NONDAILY] = nondaily;
    t[places::DAILY] = daily;
    t[places::EDITION] = edition;
    Ok(())
}

// Tests of a range, each by the name of its rule.
fn is_base(x: i64) -> bool
    ensures { result ≡ within (negsuc 0) (pos 10000) x }
{
    (-1..=10000).contains(&x)
}

fn is_section(x: i64) -> bool
    ensures { result ≡ within (pos 0) (pos 1) x }
{
    (0..=1).contains(&x)
}

fn is_operator(x: i64) -> bool
    ensures { result ≡ within (pos 1) (pos 4) x }
{
    (1..=4).contains(&x)
}

// Row 2 of an opening: are all its numbers in range? One test, whose one refusal stands where it is asked.
fn in_range(n: Opening) -> bool
    ensures { result ≡ (is_mirn n.mirn && is_flag n.kind && is_user n.user && is_day n.install && within (negsuc 0) (pos 10000) n.base && within (pos 0) (pos 1) n.section && within (pos 1) (pos 4) n.operator) }
{
    daybook::is_mirn(n.mirn)
        & daybook::is_flag(n.kind)
        & daybook::is_user(n.user)
        & calendar::is_day(n.install)
        & is_base(n.base)
        & is_section(n.section)
        & is_operator(n.operator)
}

// -1 stands for 1,000 (8.11.5).
fn base_load(n: Opening) -> u64
    ensures { result ≡ (facts_of n).base }
{
    if n.base < 0 {
        return 1000;
    }
    numbers::natural(n.base)
}

fn facts_of(n: Opening) -> Facts
    ensures { result ≡ facts_of n }
{
    Facts {
        mirn: numbers::natural(n.mirn),
        kind: numbers::natural(n.kind),
        install: numbers::natural(n.install),
        base: base_load(n),
        section: numbers::natural(n.section),
        operator: numbers::natural(n.operator),
    }
}

// Point i, behind the others, and i + 1 points.
fn append_point(t: &mut [i64], ed: Edition, i: usize, n: Opening)
    requires { Fits ed × (i < ed.points) × (table_length ≤ length t.old) × FactsOk (facts_of n) × (nat_of n.user < 2 ^ 63) }
    ensures { t.new ≡ append_point ed t.old i (facts_of n) (nat_of n.user) }
{
    let a = table::place(ed, i);
    let b = table::place(ed, i + 1);
    rows::open_point(&mut t[a..b], facts_of(n), numbers::natural(n.user));
    numbers::put(t, places::POINTS, i as u64 + 1);
}

// A new point: 5 for a MIRN that the register has, 16 where all points are taken, 19 where those left after it would be
// fewer than the other operators' unfilled reserves.
pub fn open(t: &mut [i64], n: Opening) -> Result<(), Refusal>
    ensures { (notice_numbers result ≡ (open_call editions t.old n).0) × (t.new ≡ (open_call editions t.old n).1) }
{
    let register = Register::of(t)?;
    let edition = register.edition;
    if !in_range(n) {
        return Err(Refusal::OutOfRange);
    }
    let known = register.index_of(numbers::natural(n.mirn)).is_some();
    if known {
        return Err(Refusal::MirnOpen);
    }
    let count = register.points();
    if edition.points <= count {
        return Err(Refusal::Full);
    }
    let reserved = reserves::others_unfilled(&register, numbers::natural(n.operator));
    if edition.points - (count + 1) < reserved {
        return Err(Refusal::ReserveAtStake);
    }
    append_point(t, edition, count, n);
    Ok(())
}
