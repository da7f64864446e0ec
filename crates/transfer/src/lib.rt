// Transfer of a point to another User: a request, which waits for a reading in its allowable period, and its
// withdrawal. Each call finds its point, and lends the point's part to a function that works on that alone.
#![tactic(auto)]

ghost use Rattle.std.specs.Prelude.{◌≡◌, ◌≤◌};
ghost use Rattle.refusals.specs.Refusals.{row_of};
ghost use Rattle.calendar.specs.Calendar.{allowable_period};
ghost use Rattle.daybook.specs.Notices.{least, request_early, withdraw_early};
ghost use Rattle.daybook.specs.Calls.{notice_numbers, request_numbers};
ghost use Rattle.daybook.specs.Editions.{editions};
ghost use Rattle.layout.specs.InnerParts.{SoundPart};
ghost use Rattle.transfer.specs.Transfer.{request_call, withdraw_call};
ghost use Rattle.transfer.specs.InnerParts.{request_part, withdraw_part};

use calendar::{Day, Period};
use daybook::{TransferRequest, Withdrawal};
use refusals::Refusal;
use table::Register;

// The row of a withdrawal's own numbers.
fn withdrawal_row(n: Withdrawal) -> Result<(), Refusal>
    ensures { row_of result ≡ least (withdraw_early n) }
{
    if daybook::is_mirn(n.mirn) & daybook::is_user(n.user) {
        return Ok(());
    }
    Err(Refusal::OutOfRange)
}

// A request is withdrawn by its own User only.
fn withdraw_at(p: &mut [i64], user: u64) -> Result<(), Refusal>
    requires { SoundPart p.old × (1 ≤ user) }
    ensures { (notice_numbers result ≡ (withdraw_part user p.old).0) × (p.new ≡ (withdraw_part user p.old).1) }
{
    if places::pending_user(p) != user {
        return Err(Refusal::NoRequest);
    }
    rows::clear_pending(p);
    Ok(())
}

// The withdraw call.
pub fn withdraw(t: &mut [i64], n: Withdrawal) -> Result<(), Refusal>
    ensures { (notice_numbers result ≡ (withdraw_call editions t.old n).0) × (t.new ≡ (withdraw_call editions t.old n).1) }
{
    let register = Register::of(t)?;
    withdrawal_row(n)?;
    let place = register.locate(n.mirn)?;
    withdraw_at(&mut t[place.from..place.to], numbers::natural(n.user))
}

// The rows of a request's own numbers and its holidays.
fn request_row(n: TransferRequest, holidays: &[i64]) -> Result<(), Refusal>
    ensures { row_of result ≡ least (request_early n holidays.now) }
{
    let numbers = daybook::is_mirn(n.mirn)
        & daybook::is_user(n.user)
        & calendar::is_day(n.proposed)
        & daybook::is_flag(n.nochange);
    if !numbers {
        return Err(Refusal::OutOfRange);
    }
    if !calendar::holiday_list(holidays) {
        return Err(Refusal::NoHolidayList);
    }
    Ok(())
}

// The latest User is that of the last registration. nochange stays a number: allowable_period takes any.
fn request_at(
    p: &mut [i64],
    user: u64,
    proposed: Day,
    nochange: u64,
    holidays: &[i64],
) -> Result<Period, Refusal>
    requires { SoundPart p.old × (user ≤ 16) × (proposed.0 ≤ 39999) }
    ensures { (request_numbers result ≡ (request_part user (allowable_period holidays.now proposed.0 nochange) p.old).0) × (p.new ≡ (request_part user (allowable_period holidays.now proposed.0 nochange) p.old).1) }
{
    if places::pending_user(p) != 0 {
        return Err(Refusal::RequestPending);
    }
    let count = places::registrations(p);
    if places::reg_user(p, count - 1) == user {
        return Err(Refusal::LatestUser);
    }
    let Some(period) = calendar::allowable_period(holidays, proposed, nochange) else {
        return Err(Refusal::PeriodOutside);
    };
    if 8 <= count {
        return Err(Refusal::Full);
    }
    rows::set_pending(p, user, period.first.0, period.last.0);
    Ok(period)
}

// The request call: its answer is the allowable period.
pub fn request(t: &mut [i64], n: TransferRequest, holidays: &[i64]) -> Result<Period, Refusal>
    ensures { (request_numbers result ≡ (request_call editions t.old n holidays.now).0) × (t.new ≡ (request_call editions t.old n holidays.now).1) }
{
    let register = Register::of(t)?;
    request_row(n, holidays)?;
    let place = register.locate(n.mirn)?;
    let user = numbers::natural(n.user);
    let proposed = Day(numbers::natural(n.proposed));
    let nochange = numbers::natural(n.nochange);
    request_at(
        &mut t[place.from..place.to],
        user,
        proposed,
        nochange,
        holidays,
    )
}
