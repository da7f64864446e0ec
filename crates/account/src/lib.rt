// account: what the shares of a User's days add up to over a period. No days are walked: a point's registrations cut
// the period into spans with one FRO each, and a span's energy is read at once. A sum is raised, so that it is natural.
#![tactic(auto)]

ghost use Rattle.std.specs.Prelude.{◌≡◌, ◌&&◌, ◌-◌, ◌<◌, ◌≤◌};
ghost use lib.IntN.{sub_ℕ};
ghost use Rattle.std.specs.Int.Signed.{le_z};
ghost use Rattle.numbers.specs.Sums.{sum_from};
ghost use Rattle.calendar.specs.Calendar.{is_day};
ghost use Rattle.daybook.specs.Book.{day_share};
ghost use Rattle.daybook.specs.Calls.{account_numbers};
ghost use Rattle.daybook.specs.Notices.{is_user};
ghost use Rattle.daybook.specs.Queries.{own_share, account_of};
ghost use Rattle.daybook.specs.Editions.{editions};
ghost use Rattle.layout.specs.Places.{reg_count};
ghost use Rattle.point.specs.InnerParts.{number_in};
ghost use Rattle.table.specs.InnerRegisters.{book};
ghost use Rattle.readings.specs.InnerReadings.{point_of_part};
ghost use Rattle.account.specs.Account.{account_call};
ghost use Rattle.account.specs.InnerRegistrations.{start_in, own_in};

use daybook::AccountQuery;
use point::Part;
use refusals::Refusal;
use table::Register;

// Row 2: one test, whose one refusal stands where it is asked.
fn in_range(n: AccountQuery) -> bool
    ensures { result ≡ (is_user n.user && is_day n.from && is_day n.to && le_z n.from n.to) }
{
    daybook::is_user(n.user) & calendar::is_day(n.from) & calendar::is_day(n.to) & (n.from <= n.to)
}

// The day on which registration j starts, moved into x to y; y if there is no such registration.
fn start_in(part: &Part, j: usize, x: u64, y: u64) -> u64
    requires { x ≤ y }
    ensures { result ≡ start_in part.now.numbers.now x y j }
{
    let n = places::registrations(part.numbers);
    if n <= j {
        return y;
    }
    places::reg_start(part.numbers, j).clamp(x, y)
}

// The energy of registration j's days of x to y - 1 if it is the User's, raised by 2,000,000,000.
fn registration_energy(part: &Part, j: usize, user: u64, x: u64, y: u64) -> u64
    requires { (j < number_in part.now reg_count) × (x ≤ y) }
    ensures { (sub_ℕ result 2000000000 ≡ own_in (day_share (point_of_part part.now)) user part.now.numbers.now x y j) × (result ≤ 4000000000) }
{
    if places::reg_user(part.numbers, j) != user {
        return 2000000000;
    }
    let start = start_in(part, j, x, y);
    let next = start_in(part, j + 1, x, y);
    readings::energy_between(part, start, next)
}

// The energy of the User's days of x to y - 1 at one point, raised by 16,000,000,000.
fn point_energy(part: &Part, user: u64, x: u64, y: u64) -> u64
    requires { (1 ≤ user) × (x ≤ y) }
    ensures { (sub_ℕ result 16000000000 ≡ sum_from (own_share user (point_of_part part.now)) x (y - x)) × (result ≤ 32000000000) }
{
    let n = places::registrations(part.numbers);
    let sum: u64 = (0..n)
        .map(|j| registration_energy(part, j, user, x, y))
        .sum();
    sum + 16000000000 - 2000000000 * n as u64
}

// The energy of the User's days of a to b at all points.
fn table_energy(register: &Register, user: u64, a: u64, b: u64) -> i64
    requires { (1 ≤ user) × (a ≤ b) × (b ≤ 39999) }
    ensures { result ≡ account_of user a b (book register.now) }
{
    let n = register.points();
    let mut sum: u64 = 0;
    for i in 0..n {
        let part = Part {
            numbers: register.part(i),
        };
        sum += point_energy(&part, user, a, b + 1);
    }
    numbers::difference(sum, 16000000000 * n as u64)
}

// On any table and any numbers.
pub fn account(t: &[i64], n: AccountQuery) -> Result<i64, Refusal>
    ensures { account_numbers result ≡ account_call editions t.now n }
{
    let register = Register::of(t)?;
    if !in_range(n) {
        return Err(Refusal::OutOfRange);
    }
    let user = numbers::natural(n.user);
    let from = numbers::natural(n.from);
    let to = numbers::natural(n.to);
    Ok(table_energy(&register, user, from, to))
}
