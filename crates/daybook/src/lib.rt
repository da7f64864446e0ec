// The numbers of each call, in document 01's order, and what it answers where it is not refused. Numbers come in by
// value, as any i64. And the tests of these numbers (that of a day is calendar's), and each answer as document 01's
// numbers.
#![tactic(auto)]

ghost use Rattle.std.specs.Prelude.{◌≡◌};
ghost use Rattle.words.specs.Words.{bits_of};
ghost use Rattle.calendar.specs.Calendar.{date_numbers};
ghost use Rattle.daybook.specs.Notices.{is_mirn, is_user, is_flag, is_range, is_edition};
ghost use Rattle.daybook.specs.States.{is_state};
ghost use Rattle.daybook.specs.Calls.{notice_numbers, energy_numbers, request_numbers, correction_numbers, account_numbers, allocation_numbers, trial_numbers};

use calendar::{Day, Period};
use refusals::Refusal;

// Beside the book stands the edition of the table: its number, how many points it holds, how many records of each, and
// how many points it reserves for each operator (document 02, g and k).
#[derive(Clone, Copy)]
pub struct Edition {
    pub number: u64,
    pub points: usize,
    pub records: usize,
    pub reserve: usize,
}

// What fresh makes: a register with these two ranges, of the edition of that number (document 02, k).
#[derive(Clone, Copy)]
pub struct NewRegister {
    pub nondaily: i64,
    pub daily: i64,
    pub edition: i64,
}

// The section is 1 for Wagga Wagga and Tamworth, 0 for the rest (document 02, a). The network operator is 1 to 4
// (document 02, g).
#[derive(Clone, Copy)]
pub struct Opening {
    pub mirn: i64,
    pub kind: i64,
    pub user: i64,
    pub install: i64,
    pub base: i64,
    pub section: i64,
    pub operator: i64,
}

// What an opening says once and for all. The kind is 0 non-daily or 1 daily metered; the base load is MJ a day.
// Kind, section and operator stay numbers: a part's facts are read before they are tested; facts_sound says which are
// right.
#[derive(Clone, Copy)]
pub struct Facts {
    pub mirn: u64,
    pub kind: u64,
    pub install: u64,
    pub base: u64,
    pub section: u64,
    pub operator: u64,
}

#[derive(Clone, Copy)]
pub struct EnergyNotice {
    pub mirn: i64,
    pub start: i64,
    pub end: i64,
    pub energy: i64,
    pub type_: i64,
    pub confirmed: i64,
}

#[derive(Clone, Copy)]
pub struct StatusNotice {
    pub mirn: i64,
    pub day: i64,
    pub on: i64,
}

// The holidays are lent beside it.
#[derive(Clone, Copy)]
pub struct TransferRequest {
    pub mirn: i64,
    pub user: i64,
    pub proposed: i64,
    pub nochange: i64,
}

#[derive(Clone, Copy)]
pub struct Withdrawal {
    pub mirn: i64,
    pub user: i64,
}

// The correction of a transfer error: the User is FRO from the day on (document 02, j).
#[derive(Clone, Copy)]
pub struct Correction {
    pub mirn: i64,
    pub user: i64,
    pub day: i64,
    pub notice: i64,
}

#[derive(Clone, Copy)]
pub struct AccountQuery {
    pub user: i64,
    pub from: i64,
    pub to: i64,
}

// The answer table is lent beside it.
#[derive(Clone, Copy)]
pub struct AllocationQuery {
    pub gasday: i64,
    pub from: i64,
    pub to: i64,
    pub tdq: i64,
    pub uag: i64,
    pub clp: i64,
}

// What became of a pending request, once an append stands.
#[derive(Clone, Copy, Debug, PartialEq, Eq)]
pub enum Settlement {
    Registered(u64),
    Lapsed,
    Unsettled,
}

// What an energy notice was: an append, which may settle a request, a replacement, or a recut, which removes records.
#[derive(Clone, Copy, Debug, PartialEq, Eq)]
pub enum EnergyEntry {
    Append(Settlement),
    Replacement,
    Recut { removed: u64 },
}

// The net section load and the sixteen Users' totals.
#[derive(Clone, Copy)]
pub struct Allocation {
    pub nsl: i64,
    pub totals: [i64; 16],
}

// Of a trial: the largest number of records that any point would hold on the way, and how many would be removed in all
// (document 02, i).
#[derive(Clone, Copy)]
pub struct TrialCounts {
    pub most: u64,
    pub removed: u64,
}

// Tests of a range, each by the name of the rule that it decides.
pub fn is_mirn(x: i64) -> bool
    ensures { result ≡ is_mirn x }
{
    (1..=9999999999).contains(&x)
}

pub fn is_user(x: i64) -> bool
    ensures { result ≡ is_user x }
{
    (1..=16).contains(&x)
}

pub fn is_flag(x: i64) -> bool
    ensures { result ≡ is_flag x }
{
    (0..=1).contains(&x)
}

// A validation range, -1 for none.
pub fn is_range(x: i64) -> bool
    ensures { result ≡ is_range x }
{
    (-1..=1000000).contains(&x)
}

// The number of an edition.
pub fn is_edition(x: i64) -> bool
    ensures { result ≡ is_edition x }
{
    (0..=1).contains(&x)
}

// A state number.
pub fn is_state(x: i64) -> bool
    ensures { result ≡ is_state x }
{
    (1..=4).contains(&x)
}

// The numbers of an answer, as their bits: the refusal, then the fields. Those of fresh, open, status, withdraw, save,
// restore and convert, which answer with no field:
pub fn notice_numbers(a: Result<(), Refusal>) -> [u64; 1]
    ensures { result ≡ bits_of (notice_numbers a) }
{
    match a {
        Ok(()) => [0],
        Err(r) => [u64::from(r)],
    }
}

// An append is 1, a replacement 2 and a recut 3.
pub fn energy_numbers(a: Result<EnergyEntry, Refusal>) -> [u64; 5]
    ensures { result ≡ bits_of (energy_numbers a) }
{
    match a {
        Ok(EnergyEntry::Append(Settlement::Registered(user))) => [0, 1, 0, user, 0],
        Ok(EnergyEntry::Append(Settlement::Lapsed)) => [0, 1, 0, 0, 1],
        Ok(EnergyEntry::Append(Settlement::Unsettled)) => [0, 1, 0, 0, 0],
        Ok(EnergyEntry::Replacement) => [0, 2, 0, 0, 0],
        Ok(EnergyEntry::Recut { removed }) => [0, 3, removed, 0, 0],
        Err(r) => [u64::from(r), 0, 0, 0, 0],
    }
}

pub fn request_numbers(a: Result<Period, Refusal>) -> [u64; 3]
    ensures { result ≡ bits_of (request_numbers a) }
{
    match a {
        Ok(Period { first, last }) => [0, first.0, last.0],
        Err(r) => [u64::from(r), 0, 0],
    }
}

// 1 for a User who is affected. A `for` writes them behind the refusal, as it does the totals below: of a chain that
// writes what it captures nothing is said.
pub fn correction_numbers(a: Result<[bool; 16], Refusal>) -> [u64; 17]
    ensures { result ≡ bits_of (correction_numbers a) }
{
    let mut numbers = [0u64; 17];
    match a {
        Ok(affected) => {
            for k in 0..16 {
                numbers[1 + k] = u64::from(affected[k]);
            }
        }
        Err(r) => numbers[0] = u64::from(r),
    }
    numbers
}

pub fn date_numbers(a: Result<Day, Refusal>) -> [u64; 2]
    ensures { result ≡ bits_of (date_numbers a) }
{
    match a {
        Ok(d) => [0, d.0],
        Err(r) => [u64::from(r), 0],
    }
}

pub fn account_numbers(a: Result<i64, Refusal>) -> [u64; 2]
    ensures { result ≡ bits_of (account_numbers a) }
{
    match a {
        Ok(sum) => [0, sum.cast_unsigned()],
        Err(r) => [u64::from(r), 0],
    }
}

pub fn allocation_numbers(a: Result<Allocation, Refusal>) -> [u64; 18]
    ensures { result ≡ bits_of (allocation_numbers a) }
{
    let mut numbers = [0u64; 18];
    match a {
        Ok(given) => {
            numbers[1] = given.nsl.cast_unsigned();
            for k in 0..16 {
                numbers[2 + k] = given.totals[k].cast_unsigned();
            }
        }
        Err(r) => numbers[0] = u64::from(r),
    }
    numbers
}

pub fn trial_numbers(a: Result<TrialCounts, Refusal>) -> [u64; 3]
    ensures { result ≡ bits_of (trial_numbers a) }
{
    match a {
        Ok(TrialCounts { most, removed }) => [0, most, removed],
        Err(r) => [u64::from(r), 0, 0],
    }
}
