// Days, dates and business days. A plain day and a count of business days are types of their own, so that one is
// never taken for the other (clause 1.2.1).
#![tactic(auto)]

ghost use Rattle.std.specs.Prelude.{◌≡◌, ◌&&◌, cond, suc, ◌-◌, ◌<◌, ◌≤◌, ◌^◌, leb, ltb, eqb, pos, length, get_or};
ghost use Rattle.std.specs.Int.Signed.{lt_z};
ghost use Rattle.numbers.specs.Rows.{all};
ghost use Rattle.numbers.specs.Search.{first_from, last_below};
ghost use Rattle.calendar.specs.Calendar.{is_day, leap, days_before, month_length, day_of, date_numbers, date_call, weekend, holiday_list, listed, business_day, business_day_before, business_day_after, allowable_period, reached_day, period_days};

use refusals::Refusal;

// A day, counted from 1 January 1970 = 0. Its bound is a clause's: not all functions ask for the same.
#[derive(Clone, Copy)]
pub struct Day(pub u64);

// How many business days.
#[derive(Clone, Copy)]
pub struct BusinessDays(pub u64);

#[derive(Clone, Copy)]
pub struct YearMonthDay {
    pub year: i64,
    pub month: i64,
    pub day: i64,
}

// An allowable period, by its first and its last day.
#[derive(Clone, Copy)]
pub struct Period {
    pub first: Day,
    pub last: Day,
}

// Is this a day that calls take?
pub fn is_day(x: i64) -> bool
    ensures { result ≡ is_day x }
{
    (0..=39999).contains(&x)
}

// The days before a month in a common year. 367 days, with 30 in February, spread evenly over the months; from March on
// 2 fewer have passed.
fn days_before(month: u64) -> u64
    requires { (1 ≤ month) × (month ≤ 12) }
    ensures { (result ≡ days_before month) × (result ≤ 334) }
{
    let spread = (367 * month - 362) / 12;
    let early = month <= 2;
    if early {
        return spread;
    }
    spread - 2
}

fn month_length(year: u64, month: u64) -> u64
    ensures { result ≡ month_length year month }
{
    match month {
        2 if year % 4 == 0 => 29,
        2 => 28,
        4 | 6 | 9 | 11 => 30,
        _ => 31,
    }
}

// A month of a year from 1970 to 2079, and a day of that month.
fn on_calendar(year: u64, month: u64, day: u64) -> bool
    ensures { result ≡ (leb 1970 year && leb year 2079 && (leb 1 month && leb month 12) && (leb 1 day && leb day (month_length year month))) }
{
    let last = month_length(year, month);
    (1970..=2079).contains(&year) & (1..=12).contains(&month) & (1..=last).contains(&day)
}

// 29 February, counted from March on.
fn leap_day(year: u64, month: u64) -> u64
    ensures { (result ≡ cond (leap year && ltb 2 month) 1 0) × (result ≤ 1) }
{
    u64::from((year % 4 == 0) & (2 < month))
}

// Every fourth year is a leap year, 1972 the first, so the years before the k-th hold (k + 1) / 4 of them.
fn day_of(year: u64, month: u64, day: u64) -> u64
    requires { (1970 ≤ year) × (year ≤ 2079) × (1 ≤ month) × (month ≤ 12) × (1 ≤ day) × (day ≤ 31) }
    ensures { result ≡ day_of year month day }
{
    let k = year - 1970;
    365 * k + (k + 1) / 4 + days_before(month) + leap_day(year, month) + (day - 1)
}

// The date call: the day of a date from 1 January 1970 to 7 July 2079; any other is out of range.
pub fn date(d: YearMonthDay) -> Result<Day, Refusal>
    ensures { date_numbers result ≡ date_call d.year d.month d.day }
{
    let year = numbers::natural(d.year);
    let month = numbers::natural(d.month);
    let day = numbers::natural(d.day);
    if !on_calendar(year, month, day) {
        return Err(Refusal::OutOfRange);
    }
    let at = day_of(year, month, day);
    let late = 39999 < at;
    if late {
        return Err(Refusal::OutOfRange);
    }
    Ok(Day(at))
}

// Is this a strictly ascending list of at most 512 days?
pub fn holiday_list(hs: &[i64]) -> bool
    ensures { result ≡ holiday_list hs.now }
{
    (hs.len() <= 512) & hs.iter().all(|&day| is_day(day)) & hs.is_sorted_by(|day, next| day < next)
}

fn is_weekend(d: Day) -> bool
    ensures { result ≡ weekend d.0 }
{
    matches!(d.0 % 7, 2 | 3)
}

fn is_listed(hs: &[i64], d: Day) -> bool
    requires { d.0 < 2 ^ 63 }
    ensures { result ≡ listed hs.now d.0 }
{
    hs.contains(&numbers::integer(d.0))
}

pub fn is_business_day(hs: &[i64], d: Day) -> bool
    requires { d.0 < 2 ^ 63 }
    ensures { result ≡ business_day hs.now d.0 }
{
    !is_weekend(d) && !is_listed(hs, d)
}

// The last business day before a day.
fn last_before(hs: &[i64], d: Day) -> Option<Day>
    requires { d.0 < 2 ^ 63 }
    ensures { reached_day result ≡ last_below (business_day hs.now) d.0 }
{
    (0..d.0)
        .rev()
        .find(|&day| is_business_day(hs, Day(day)))
        .map(Day)
}

// The first business day after a day.
fn first_after(hs: &[i64], d: Day) -> Option<Day>
    requires { d.0 ≤ 39999 }
    ensures { reached_day result ≡ first_from (business_day hs.now) (suc d.0) (39999 - d.0) }
{
    (d.0 + 1..40000)
        .find(|&day| is_business_day(hs, Day(day)))
        .map(Day)
}

// The n-th business day before a day, which is not counted itself; none if it lies before day 0.
#[tactic(auto, using(crate::proofs::Business::before_turns))]
pub fn business_day_before(hs: &[i64], n: BusinessDays, d: Day) -> Option<Day>
    requires { d.0 < 2 ^ 63 }
    ensures { reached_day result ≡ business_day_before hs.now n.0 d.0 }
{
    let mut day = d;
    for _ in 0..n.0 {
        day = last_before(hs, day)?;
    }
    Some(day)
}

// The n-th business day after a day, which is not counted itself; none if it lies after day 39,999. One function for
// both directions would need clauses on what its step asks and answers, and is longer than the two loops.
#[tactic(auto, using(crate::proofs::Business::after_turns))]
pub fn business_day_after(hs: &[i64], n: BusinessDays, d: Day) -> Option<Day>
    requires { d.0 ≤ 39999 }
    ensures { reached_day result ≡ business_day_after hs.now n.0 d.0 }
{
    let mut day = d;
    for _ in 0..n.0 {
        day = first_after(hs, day)?;
    }
    Some(day)
}

// How many business days before its proposed day an allowable period begins.
fn lead(no_change: u64) -> BusinessDays
    ensures { result.0 ≡ cond (eqb no_change 1) 4 10 }
{
    BusinessDays(if no_change == 1 { 4 } else { 10 })
}

// The allowable period of a proposed day, unless it begins or ends outside; no_change is 1 with a no-change statement.
// It stays a number: the definition takes any.
#[tactic(auto, unfolding(crate::specs::Calendar::allowable_period))]
pub fn allowable_period(hs: &[i64], proposed: Day, no_change: u64) -> Option<Period>
    requires { proposed.0 ≤ 39999 }
    ensures { period_days result ≡ allowable_period hs.now proposed.0 no_change }
{
    let first = business_day_before(hs, lead(no_change), proposed)?;
    let last = business_day_after(hs, BusinessDays(10), proposed)?;
    Some(Period { first, last })
}
