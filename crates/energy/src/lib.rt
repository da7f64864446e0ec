// energy: an energy notice fills days of its point as an append, a replacement or a recut; an append alone settles a
// pending request. The public call tests the table, the one before it finds the point, and the others work on that
// point's part alone.
#![tactic(auto)]

ghost use Rattle.std.specs.Prelude.{◌≡◌, true, ◌≤◌};
ghost use Rattle.refusals.specs.Refusals.{row_of};
ghost use Rattle.numbers.specs.InnerEnergies.{energy_of};
ghost use Rattle.daybook.specs.Notices.{least, energy_early, beyond};
ghost use Rattle.daybook.specs.Calls.{energy_numbers};
ghost use Rattle.daybook.specs.Editions.{editions};
ghost use Rattle.layout.specs.Layout.{Fits};
ghost use Rattle.layout.specs.Sound.{sound};
ghost use Rattle.layout.specs.InnerParts.{room_of, SoundPart};
ghost use Rattle.point.specs.InnerParts.{lists_of};
ghost use Rattle.entering.specs.InnerEntering.{raised_notice, InRange};
ghost use Rattle.energy.specs.Energy.{energy_call, user_named};
ghost use Rattle.energy.specs.InnerParts.{energy_rows_of, energy_part, energy_in};

use daybook::{Edition, EnergyEntry, EnergyNotice};
use entering::{Kept, RaisedNotice};
use point::Part;
use refusals::Refusal;
use rows::Record;
use table::Register;

// A notice's own numbers, row 2.
fn own_row(n: EnergyNotice) -> Result<(), Refusal>
    ensures { row_of result ≡ least (energy_early n) }
{
    if daybook::is_mirn(n.mirn)
        & calendar::is_day(n.start)
        & calendar::is_day(n.end)
        & (-1000000..=1000000).contains(&n.energy)
        & (0..=2).contains(&n.type_)
        & daybook::is_flag(n.confirmed)
    {
        return Ok(());
    }
    Err(Refusal::OutOfRange)
}

fn read(n: EnergyNotice) -> RaisedNotice
    ensures { result ≡ raised_notice n }
{
    RaisedNotice {
        mirn: numbers::natural(n.mirn),
        entry: Record {
            start: numbers::natural(n.start),
            end: numbers::natural(n.end),
            energy: numbers::bias(n.energy),
            type_: numbers::natural(n.type_),
        },
        confirmed: numbers::natural(n.confirmed),
    }
}

// Beyond ± the range of the point's kind, both raised by 1,000,000; a range below that is none. The kind is a number,
// as it stands in the table.
fn unusual(kind: u64, nondaily: u64, daily: u64, energy: u64) -> bool
    requires { (nondaily ≤ 2000000) × (daily ≤ 2000000) × (energy ≤ 2000000) }
    ensures { result ≡ beyond (energy_of nondaily) (energy_of daily) kind (energy_of energy) }
{
    let range = if kind == 0 { nondaily } else { daily };
    (1000000 <= range) & ((range < energy) | (energy + range < 2000000))
}

// The rows that a notice's point decides.
fn check(part: &Part, x: RaisedNotice, nondaily: u64, daily: u64) -> Result<(), Refusal>
    requires { InRange x × (nondaily ≤ 2000000) × (daily ≤ 2000000) }
    ensures { row_of result ≡ least (energy_rows_of x nondaily daily (room_of part.now.numbers.now) (lists_of part.now)) }
{
    let kind = places::kind(part.numbers);
    if !point::fits_kind(kind, x.entry.start, x.entry.end) {
        return Err(Refusal::DaysOfOtherKind);
    }
    let append = entering::appends(part, x.entry.start);
    if append & (entering::append_day(part) != x.entry.start) {
        return Err(Refusal::NotAppendDay);
    }
    let spans = places::spans(part.numbers);
    if !point::no_off(part.numbers, spans, x.entry.start, x.entry.end) {
        return Err(Refusal::OffDay);
    }
    if unusual(kind, nondaily, daily, x.entry.energy) & (x.confirmed == 0) {
        return Err(Refusal::Unconfirmed);
    }
    let room = (part.numbers.len() - places::RECS) / places::REC_LENGTH;
    if append & (room <= places::records(part.numbers)) {
        return Err(Refusal::Full);
    }
    Ok(())
}

// A notice on its point's part, which a refusal leaves as found.
fn enter(p: &mut [i64], x: RaisedNotice, nondaily: u64, daily: u64) -> Result<EnergyEntry, Refusal>
    requires { SoundPart p.old × InRange x × (nondaily ≤ 2000000) × (daily ≤ 2000000) }
    ensures { (energy_numbers result ≡ (energy_part x nondaily daily p.old).0) × (p.new ≡ (energy_part x nondaily daily p.old).1) × (user_named result ≡ true) }
{
    let part = Part { numbers: p };
    check(&part, x, nondaily, daily)?;
    match entering::enter_record(p, x) {
        Kept::Appended => Ok(EnergyEntry::Append(entering::settle_request(p, x))),
        Kept::Replaced => Ok(EnergyEntry::Replacement),
        Kept::Recut { removed } => Ok(EnergyEntry::Recut { removed }),
    }
}

// A notice on a table that is known to be sound.
pub fn enter_in_sound(t: &mut [i64], ed: Edition, n: EnergyNotice) -> Result<EnergyEntry, Refusal>
    requires { Fits ed × (sound ed t.old ≡ true) }
    ensures { (energy_numbers result ≡ (energy_in ed t.old n).0) × (t.new ≡ (energy_in ed t.old n).1) × (user_named result ≡ true) }
{
    own_row(n)?;
    let register = Register {
        table: t,
        edition: ed,
    };
    let place = register.locate(n.mirn)?;
    let nondaily = places::nondaily(t);
    let daily = places::daily(t);
    enter(&mut t[place.from..place.to], read(n), nondaily, daily)
}

// On any table and any numbers.
pub fn energy(t: &mut [i64], n: EnergyNotice) -> Result<EnergyEntry, Refusal>
    ensures { (energy_numbers result ≡ (energy_call editions t.old n).0) × (t.new ≡ (energy_call editions t.old n).1) × (user_named result ≡ true) }
{
    let edition = Register::of(t)?.edition;
    enter_in_sound(t, edition, n)
}
