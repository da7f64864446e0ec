// correct, the correction of a transfer error: a User is FRO of a point from a day on (document 02, j). The answer
// marks the Users who lose a day by it. No days are walked: whose days they are is read off the registrations.
#![tactic(auto)]

ghost use Rattle.std.specs.Prelude.{◌≡◌, cond, map, ◌+◌, ◌<◌, ◌≤◌, eqb, length, take, drop};
ghost use Rattle.refusals.specs.Refusals.{row_of};
ghost use Rattle.numbers.specs.Search.{is_some};
ghost use Rattle.daybook.specs.Notices.{least, users};
ghost use Rattle.daybook.specs.Corrections.{others_request, correct_early, permitted as is_permitted, correct_rows_at};
ghost use Rattle.daybook.specs.Calls.{correction_numbers};
ghost use Rattle.daybook.specs.Editions.{editions};
ghost use Rattle.lists.specs.Lists.{point_of, next_after};
ghost use Rattle.lists.specs.InnerSteps.{latest_of, some_user, earlier, user_from, with_regs};
ghost use Rattle.layout.specs.Places.{reg_count};
ghost use Rattle.layout.specs.Layout.{point_numbers, point_from};
ghost use Rattle.layout.specs.InnerParts.{room_of, SoundPart};
ghost use Rattle.point.specs.InnerParts.{lists_of, number_in};
ghost use Rattle.correction.specs.Correction.{correct_call};
ghost use Rattle.correction.specs.InnerParts.{start_of, loses_day, correct_part};

use daybook::Correction;
use point::Part;
use refusals::Refusal;
use std::array;
use table::Register;

// The row of a correction's own numbers.
fn correction_row(n: Correction) -> Result<(), Refusal>
    ensures { row_of result ≡ least (correct_early n) }
{
    let numbers = daybook::is_mirn(n.mirn)
        & daybook::is_user(n.user)
        & calendar::is_day(n.day)
        & calendar::is_day(n.notice);
    if numbers {
        return Ok(());
    }
    Err(Refusal::OutOfRange)
}

// From 425 days before the notice day to that day, and not before install.
fn permitted(install: u64, notice: u64, day: u64) -> bool
    requires { day ≤ 39999 }
    ensures { result ≡ is_permitted install notice day }
{
    (install <= day) & (notice <= day + 425) & (day <= notice)
}

// How many registrations start before the day.
fn started(part: &Part, day: u64) -> usize
    ensures { (result ≡ length (earlier start_of day (lists_of part.now).regs))
        × (result ≤ number_in part.now reg_count) }
{
    let n = places::registrations(part.numbers);
    (0..n)
        .find(|k| day <= places::reg_start(part.numbers, *k))
        .unwrap_or(n)
}

// Is the last of the first k registrations the User's?
fn is_last(part: &Part, k: usize, user: u64) -> bool
    requires { (k ≤ number_in part.now reg_count) × (1 ≤ user) }
    ensures { result ≡ eqb (latest_of (take k (lists_of part.now).regs)).1 user }
{
    if k == 0 {
        return false;
    }
    places::reg_user(part.numbers, k - 1) == user
}

// How many registrations the correction leaves.
fn left(part: &Part, user: u64, day: u64) -> usize
    requires { 1 ≤ user }
    ensures { result ≡ length (user_from day user (lists_of part.now).regs) }
{
    let k = started(part, day);
    if is_last(part, k, user) {
        return k;
    }
    k + 1
}

// How many registrations there may be: one fewer beside a request that stays pending.
fn most(part: &Part, user: u64) -> usize
    ensures { result ≡ cond (is_some (others_request user (lists_of part.now).pending)) 7 8 }
{
    let pending = places::pending_user(part.numbers);
    if (pending == 0) | (pending == user) {
        return 8;
    }
    7
}

// The point's rows in the order in which they are tested. A correction changes no day's FRO where the latest
// registration is the User's already and has started by the day.
fn point_row(part: &Part, user: u64, day: u64, notice: u64) -> Result<(), Refusal>
    requires { (1 ≤ user) × (user ≤ 16) × (day ≤ 39999) }
    ensures { row_of result ≡ least (correct_rows_at user day notice (point_of (lists_of part.now))) }
{
    let last = places::registrations(part.numbers) - 1;
    let outside = !permitted(places::install(part.numbers), notice, day);
    let unchanged = (places::reg_start(part.numbers, last) <= day)
        & (places::reg_user(part.numbers, last) == user);
    let full = most(part, user) < left(part, user, day);
    if outside {
        return Err(Refusal::DayNotPermitted);
    }
    if unchanged {
        return Err(Refusal::UserUnchanged);
    }
    if full {
        return Err(Refusal::Full);
    }
    Ok(())
}

// Has registration k a day from `day` on? It has unless the next one has started by then.
fn reaches(part: &Part, k: usize, day: u64) -> bool
    requires { k < number_in part.now reg_count }
    ensures { result ≡ next_after day (drop (k + 1) (lists_of part.now).regs) }
{
    let next = k + 1;
    if next == places::registrations(part.numbers) {
        return true;
    }
    day < places::reg_start(part.numbers, next)
}

// Is the User FRO on some day from `day` on?
fn has_days(part: &Part, user: u64, day: u64) -> bool
    ensures { result ≡ some_user (eqb user) day (lists_of part.now).regs }
{
    let n = places::registrations(part.numbers);
    (0..n).any(|k| reaches(part, k, day) & (user == places::reg_user(part.numbers, k)))
}

// Which Users lose a day where `user` is FRO from `day` on?
fn flags(part: &Part, user: u64, day: u64) -> [bool; 16]
    ensures { result ≡ map (loses_day user day (lists_of part.now).regs) users }
{
    array::from_fn(|k| {
        let other = k as u64 + 1;
        (other != user) & has_days(part, other, day)
    })
}

// The User from the day on: later registrations go, and one that would repeat its neighbour's User is left out.
fn register_from(p: &mut [i64], user: u64, day: u64)
    requires { SoundPart p.old × (1 ≤ user) × (user ≤ 16) × (day ≤ 39999) × (length (user_from day user (point_from p.old).regs) ≤ 8) }
    ensures { p.new ≡ point_numbers (room_of p.old) (with_regs (user_from day user (point_from p.old).regs) (point_from p.old)) }
{
    let part = Part { numbers: p };
    let n = places::registrations(p);
    let k = started(&part, day);
    let repeats = is_last(&part, k, user);
    rows::cut_registrations(p, k, n);
    if !repeats {
        rows::append_registration(p, k, day, user);
    }
}

// A request of the User's own is cleared, another's stays.
fn correct_at(p: &mut [i64], user: u64, day: u64, notice: u64) -> Result<[bool; 16], Refusal>
    requires { SoundPart p.old × (1 ≤ user) × (user ≤ 16) × (day ≤ 39999) }
    ensures { (correction_numbers result ≡ (correct_part user day notice p.old).0) × (p.new ≡ (correct_part user day notice p.old).1) }
{
    let part = Part { numbers: p };
    point_row(&part, user, day, notice)?;
    let affected = flags(&part, user, day);
    let pending = places::pending_user(p);
    register_from(p, user, day);
    if pending == user {
        rows::clear_pending(p);
    }
    Ok(affected)
}

// The correct call.
pub fn correct(t: &mut [i64], n: Correction) -> Result<[bool; 16], Refusal>
    ensures { (correction_numbers result ≡ (correct_call editions t.old n).0) × (t.new ≡ (correct_call editions t.old n).1) }
{
    let register = Register::of(t)?;
    correction_row(n)?;
    let place = register.locate(n.mirn)?;
    let user = numbers::natural(n.user);
    let day = numbers::natural(n.day);
    let notice = numbers::natural(n.notice);
    correct_at(&mut t[place.from..place.to], user, day, notice)
}
