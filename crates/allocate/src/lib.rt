// allocate: the net section load of a gas day, split among the points by their weights and counted for their FROs
// (8.11.2 to 8.11.6). Every total is natural: a number that may be negative is raised first.
#![tactic(auto)]

ghost use Rattle.std.specs.Prelude.{◌≡◌, ℕ, true, cond, ◌∷◌, map, ◌+◌, ◌*◌, ◌<◌, ◌≤◌, eqb, length, replicate, pos, negsuc};
ghost use lib.IntN.{sub_ℕ};
ghost use Rattle.calendar.specs.Calendar.{within};
ghost use Rattle.daybook.specs.Book.{Point};
ghost use Rattle.daybook.specs.Notices.{users};
ghost use Rattle.daybook.specs.Queries.{allocation_in_range, at_least0, tdm_of, weight, total as total_weight, split};
ghost use Rattle.daybook.specs.Calls.{allocation_numbers};
ghost use Rattle.daybook.specs.Editions.{editions};
ghost use Rattle.layout.specs.Layout.{stride};
ghost use Rattle.layout.specs.Calls.{placed};
ghost use Rattle.table.specs.InnerRegisters.{book, number_of_points};
ghost use Rattle.readings.specs.InnerReadings.{point_of_part};
ghost use Rattle.allocate.specs.Allocate.{allocate_call};
ghost use Rattle.allocate.specs.InnerParts.{padded, most_total, SharesBelow, total_to, load_of, MaySplit, given_of};

use daybook::{Allocation, AllocationQuery};
use point::Part;
use refusals::Refusal;
use table::Register;

fn is_quantity(x: i64) -> bool
    ensures { result ≡ within (pos 0) (pos 1000000000) x }
{
    (0..=1000000000).contains(&x)
}

// Is this an amount of unaccounted gas or of a linepack change?
fn load_ok(x: i64) -> bool
    ensures { result ≡ within (negsuc 999999999) (pos 1000000000) x }
{
    (-1000000000..=1000000000).contains(&x)
}

// Such an amount, raised by 1,000,000,000.
fn raised_load(x: i64) -> u64
    requires { within (negsuc 999999999) (pos 1000000000) x ≡ true }
    ensures { (sub_ℕ result 1000000000 ≡ x) × (result ≤ 2000000000) }
{
    (x + 1000000000) as u64
}

// Row 2, for an answer table of that length: one test, whose one refusal stands where it is asked.
fn in_range(n: AllocationQuery, room: usize) -> bool
    ensures { result ≡ allocation_in_range n room }
{
    let a = numbers::natural(n.from);
    let b = numbers::natural(n.to);
    calendar::is_day(n.gasday)
        & calendar::is_day(n.from)
        & calendar::is_day(n.to)
        & (a <= b + 1)
        & (n.to < n.gasday)
        & (b <= a + 399)
        & is_quantity(n.tdq)
        & load_ok(n.uag)
        & load_ok(n.clp)
        & (32 <= room)
}

// The net section load, from TDM raised by 1,000,000 for each of n points.
fn net_load(q: AllocationQuery, tdm: u64, n: u64) -> u64
    requires { (within (pos 0) (pos 1000000000) q.tdq ≡ true) × (within (negsuc 999999999) (pos 1000000000) q.uag ≡ true) × (within (negsuc 999999999) (pos 1000000000) q.clp ≡ true) × (n ≤ 32) × (tdm ≤ 2000000 * n) }
    ensures { (result ≡ at_least0 (load_of q tdm (1000000 * n))) × (result ≤ 3032000000) }
{
    let gained = numbers::natural(q.tdq) + 1000000 * n + 2000000000;
    let taken = tdm + raised_load(q.uag) + raised_load(q.clp);
    gained.saturating_sub(taken)
}

// S, the sum of 32 weights.
fn sum_of(ws: &[u64]) -> u64
    requires { (length ws.now ≡ 32) × (total_weight ws.now ≤ most_total) }
    ensures { result ≡ total_weight ws.now }
{
    ws.iter().sum()
}

// The load split by 32 weights, of which s is the sum; a point with weight 0 gets 0. A `for`, since it carries two
// numbers on and writes.
fn split_to(ws: &[u64], load: u64, s: u64, out: &mut [i64])
    requires { (length ws.now ≡ 32) × (32 ≤ length out.old) × (load ≤ 3032000000) × (0 < s) × (s ≤ most_total) × (s ≡ total_weight ws.now) }
    ensures { out.new ≡ placed (split load s 0 ws.now) out.old }
{
    let mut sum: u64 = 0;
    let mut low: u64 = 0;
    for (k, w) in ws.iter().enumerate() {
        sum += *w;
        let high = load * sum / s;
        numbers::put(out, k, high - low);
        low = high;
    }
}

// A share where its point's FRO is the User, else 0.
fn own(fro: u64, user: u64, share: u64) -> u64
    ensures { result ≡ cond (eqb fro user) share 0 }
{
    if fro == user {
        return share;
    }
    0
}

// What User u has of the 32 shares.
fn total_of(us: &[u64], xs: &[i64], u: u64) -> u64
    requires { (length us.now ≡ 32) × (32 ≤ length xs.now) × SharesBelow 3032000000 xs.now }
    ensures { (result ≡ total_to us.now xs.now u 32) × (result ≤ 97024000000) }
{
    (0..32).map(|k| own(us[k], u, numbers::get(xs, k))).sum()
}

// The sixteen Users' totals.
fn totals(us: &[u64], xs: &[i64]) -> [i64; 16]
    requires { (length us.now ≡ 32) × (32 ≤ length xs.now) × SharesBelow 3032000000 xs.now }
    ensures { result ≡ map (λ u. pos (total_to us.now xs.now u 32)) users }
{
    std::array::from_fn(|k| numbers::integer(total_of(us, xs, k as u64 + 1)))
}

// A number of each point, read off its part of the table; 0 past the last one. There are 32, as many as the answer
// table of the C interface has.
fn of_points<F: Fn(&Part) -> u64>(register: &Register, read: F) -> [u64; 32]
    requires { (part : _) → F.pre read part }
    ensures { (number : Point → ℕ) (most : ℕ)
        → ((part : _) (r : ℕ) → length part.now.numbers.now ≡ stride register.now.edition → F.post read part r
        → (r ≡ number (point_of_part part.now)) × (r ≤ most))
        → (result ≡ padded (map number (book register.now).points)) × (total_weight result ≤ most * number_of_points register.now) }
{
    let mut numbers = [0u64; 32];
    for i in 0..register.points() {
        let part = Part {
            numbers: register.part(i),
        };
        numbers[i] = read(&part);
    }
    numbers
}

// The weights of the points, 0 past the last one.
fn weights(register: &Register, g: u64, a: u64, b: u64) -> [u64; 32]
    requires { (g ≤ 39999) × (a ≤ b + 1) × (b ≤ a + 399) × (b ≤ 39999) }
    ensures { (result ≡ padded (map (weight g a b) (book register.now).points)) × (total_weight result ≤ most_total) }
{
    of_points(register, |part| readings::weight(part, g, a, b))
}

// The FROs of the points on day g, 0 past the last one.
fn fros(register: &Register, g: u64) -> [u64; 32]
    ensures { result ≡ padded (map (λ p. p.fro g) (book register.now).points) }
{
    of_points(register, |part| readings::fro_on(part, g))
}

// TDM, raised by 1,000,000 for each point.
fn metered(register: &Register, g: u64) -> u64
    requires { (1 ≤ g) × (g ≤ 39999) }
    ensures { (sub_ℕ result (1000000 * number_of_points register.now) ≡ tdm_of g (book register.now)) × (result ≤ 2000000 * number_of_points register.now) }
{
    let mut sum: u64 = 0;
    for i in 0..register.points() {
        let part = Part {
            numbers: register.part(i),
        };
        sum += readings::metered(&part, g);
    }
    sum
}

// The load apportioned to the points by their weights, and counted for their FROs.
fn apportion(
    register: &Register,
    q: AllocationQuery,
    ws: &[u64],
    s: u64,
    out: &mut [i64],
) -> Allocation
    requires { MaySplit register.now q ws.now s (length out.old) }
    ensures { (result.nsl ∷ result.totals ≡ (given_of q (book register.now)).0) × (out.new ≡ placed (given_of q (book register.now)).1 out.old) }
{
    let g = numbers::natural(q.gasday);
    let load = net_load(q, metered(register, g), register.points() as u64);
    split_to(ws, load, s, out);
    let us = fros(register, g);
    Allocation {
        nsl: numbers::integer(load),
        totals: totals(&us, out),
    }
}

// On any table, any numbers and an answer table of any length.
pub fn allocate(t: &[i64], q: AllocationQuery, out: &mut [i64]) -> Result<Allocation, Refusal>
    ensures { (allocation_numbers result ≡ (allocate_call editions t.now q (length out.old)).0) × (out.new ≡ placed (allocate_call editions t.now q (length out.old)).1 out.old) }
{
    let register = Register::of(t)?;
    if !in_range(q, out.len()) {
        return Err(Refusal::OutOfRange);
    }
    let gasday = numbers::natural(q.gasday);
    let from = numbers::natural(q.from);
    let to = numbers::natural(q.to);
    let ws = weights(&register, gasday, from, to);
    let s = sum_of(&ws);
    if s == 0 {
        return Err(Refusal::NoWeight);
    }
    Ok(apportion(&register, q, &ws, s, out))
}
