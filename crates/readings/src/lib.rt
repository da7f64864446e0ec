// What is read off one point's part of the table: the energy and the filled days between two days, the FRO and the
// status of a day, the weight T of an allocation and a daily point's gas. No function walks days: a record's energy
// between two days is the difference of two parts, since its shares telescope. A sum is raised, so that it is natural.
#![tactic(auto)]

ghost use Rattle.std.specs.Prelude.{◌≡◌, ◌&&◌, cond, suc, ◌+◌, ◌-◌, ◌*◌, ◌<◌, ◌≤◌, leb, length, pos};
ghost use lib.IntN.{sub_ℕ};
ghost use Rattle.numbers.specs.Sums.{sum_from, sum_over};
ghost use Rattle.daybook.specs.Book.{day_share, filled};
ghost use Rattle.daybook.specs.Queries.{active as is_active, all_filled, at_least0, base_over, daily_gas, metered_of, weight as weight_of};
ghost use Rattle.layout.specs.Places.{rec_count};
ghost use Rattle.point.specs.InnerTests.{reg_start, reg_user, rec_row};
ghost use Rattle.point.specs.InnerParts.{number_in};
ghost use Rattle.readings.specs.InnerReadings.{point_of_part, days_passed, filled_days};
ghost use Rattle.readings.specs.InnerRecords.{part_between, partial_of, day_count};

use point::Part;

// How many of the days start to end lie before day d.
fn days_passed(start: u64, end: u64, d: u64) -> u64
    requires { (start ≤ end) × (end ≤ 39999) }
    ensures { (result ≡ days_passed start end d) × (result + start ≤ suc end) }
{
    d.saturating_sub(start).min(end + 1 - start)
}

// The energy of record k's days from x to y - 1, raised by 1,000,000.
fn record_energy(part: &Part, k: usize, x: u64, y: u64) -> u64
    requires { (k < number_in part.now rec_count) × (x ≤ y) }
    ensures { (sub_ℕ result 1000000 ≡ part_between partial_of x y (rec_row part.now.numbers.now k)) × (result ≤ 2000000) }
{
    let at = places::RECS + places::REC_LENGTH * k;
    let start = point::bits_at(part.numbers, at);
    let end = point::bits_at(part.numbers, at + 1);
    if (y <= start) | (end < x) {
        return 1000000;
    }
    let i = days_passed(start, end, x);
    let j = days_passed(start, end, y);
    let u = numbers::get_energy(part.numbers, at + 2);
    let n = end + 1 - start;
    numbers::partial_energy(u, n, j) + 1000000 - numbers::partial_energy(u, n, i)
}

// The energy of the days x to y - 1, raised by 2,000,000,000.
pub fn energy_between(part: &Part, x: u64, y: u64) -> u64
    requires { x ≤ y }
    ensures { (sub_ℕ result 2000000000 ≡ sum_from (day_share (point_of_part part.now)) x (y - x)) × (result ≤ 2000000000 + 1000000 * number_in part.now rec_count) }
{
    let n = places::records(part.numbers);
    let sum: u64 = (0..n).map(|k| record_energy(part, k, x, y)).sum();
    sum + 2000000000 - 1000000 * n as u64
}

// How many of the days x to y - 1 record k has.
fn record_days(part: &Part, k: usize, x: u64, y: u64) -> u64
    requires { (k < number_in part.now rec_count) × (x ≤ y) }
    ensures { (pos result ≡ part_between day_count x y (rec_row part.now.numbers.now k)) × (result ≤ 40000) }
{
    let at = places::RECS + places::REC_LENGTH * k;
    let start = point::bits_at(part.numbers, at);
    let end = point::bits_at(part.numbers, at + 1);
    if (y <= start) | (end < x) {
        return 0;
    }
    days_passed(start, end, y) - days_passed(start, end, x)
}

// How many of the days x to y - 1 are filled.
pub fn filled_between(part: &Part, x: u64, y: u64) -> u64
    requires { x ≤ y }
    ensures { result ≡ filled_days (point_of_part part.now) x (y - x) }
{
    (0..places::records(part.numbers))
        .map(|k| record_days(part, k, x, y))
        .sum()
}

// The User of registration j if it has begun on day g, else the one before it.
fn user_since(part: &Part, j: usize, g: u64, earlier: u64) -> u64
    requires { j < 8 }
    ensures { result ≡ cond (leb (reg_start part.now.numbers.now j) g) (reg_user part.now.numbers.now j) earlier }
{
    if places::reg_start(part.numbers, j) <= g {
        return places::reg_user(part.numbers, j);
    }
    earlier
}

// The FRO of day g, 0 before install.
pub fn fro_on(part: &Part, g: u64) -> u64
    ensures { (result ≡ (point_of_part part.now).fro g) × (result ≤ 16) }
{
    (0..places::registrations(part.numbers)).fold(0, |user, j| user_since(part, j, g, user))
}

// Is the point off on day g?
pub fn off_on(part: &Part, g: u64) -> bool
    requires { g ≤ 39999 }
    ensures { result ≡ (point_of_part part.now).off g }
{
    let n = places::spans(part.numbers);
    !point::no_off(part.numbers, n, g, g)
}

// Is the point installed and not off on gas day g?
pub fn active(part: &Part, g: u64) -> bool
    requires { g ≤ 39999 }
    ensures { result ≡ is_active g (point_of_part part.now) }
{
    (places::install(part.numbers) <= g) & !off_on(part, g)
}

// Shares over the days a to b that add up to less than 0 count 0.
fn measured(part: &Part, a: u64, b: u64) -> u64
    requires { (a ≤ b + 1) × (b ≤ 39999) }
    ensures { (result ≡ at_least0 (sum_over (day_share (point_of_part part.now)) a b)) × (result ≤ 1000000 * number_in part.now rec_count) }
{
    energy_between(part, a, b + 1).saturating_sub(2000000000)
}

// A base load, MJ for one day, over the days a to b; over no days once.
fn base_over(base: u64, a: u64, b: u64) -> u64
    requires { (base ≤ 10000) × (b ≤ a + 399) × (b ≤ 39999) }
    ensures { (result ≡ base_over base a b) × (result ≤ 4000000) }
{
    if b < a {
        return base;
    }
    base * (b + 1 - a)
}

// T of a point over the days a to b, for gas day g. Filled days are counted only where no energy shows them.
pub fn weight(part: &Part, g: u64, a: u64, b: u64) -> u64
    requires { (g ≤ 39999) × (a ≤ b + 1) × (b ≤ a + 399) × (b ≤ 39999) }
    ensures { (result ≡ weight_of g a b (point_of_part part.now)) × (result ≤ 4000000 + 250000 * length part.now.numbers.now) }
{
    if !(active(part, g) & (places::kind(part.numbers) == 0)) {
        return 0;
    }
    let energy = measured(part, a, b);
    if energy != 0 {
        return energy;
    }
    if filled_between(part, a, b + 1) == 0 {
        return base_over(places::base(part.numbers), a, b);
    }
    0
}

// The share of day d, raised by 1,000,000.
fn share_on(part: &Part, d: u64) -> u64
    requires { d ≤ 39999 }
    ensures { (sub_ℕ result 1000000 ≡ day_share (point_of_part part.now) d) × (result ≤ 2000000) }
{
    energy_between(part, d, d + 1) - 1999000000
}

fn filled_on(part: &Part, d: u64) -> bool
    requires { d ≤ 39999 }
    ensures { result ≡ filled (point_of_part part.now) d }
{
    filled_between(part, d, d + 1) == 1
}

// Are the seven days before g days of the book, and filled?
fn week_filled(part: &Part, g: u64) -> bool
    requires { g ≤ 39999 }
    ensures { result ≡ (leb 7 g && all_filled (point_of_part part.now) (g - 7) 7) }
{
    7 <= g && filled_between(part, g - 7, g) == 7
}

// A daily point's gas of day g (8.11.2(b)), raised by 1,000,000.
fn gas_on(part: &Part, g: u64) -> u64
    requires { (1 ≤ g) × (g ≤ 39999) }
    ensures { (sub_ℕ result 1000000 ≡ daily_gas g (point_of_part part.now)) × (result ≤ 2000000) }
{
    if filled_on(part, g) {
        return share_on(part, g);
    }
    if week_filled(part, g) {
        return share_on(part, g - 7);
    }
    if filled_on(part, g - 1) {
        return share_on(part, g - 1);
    }
    1000000
}

// What a point adds to TDM, raised by 1,000,000: its gas if it is active and daily, else nothing.
pub fn metered(part: &Part, g: u64) -> u64
    requires { (1 ≤ g) × (g ≤ 39999) }
    ensures { (sub_ℕ result 1000000 ≡ metered_of g (point_of_part part.now)) × (result ≤ 2000000) }
{
    if active(part, g) & (places::kind(part.numbers) == 1) {
        return gas_on(part, g);
    }
    1000000
}
