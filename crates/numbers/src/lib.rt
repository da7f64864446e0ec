// Numbers of the register: signed numbers read as naturals, energies raised by 1,000,000, and the shares of an
// entry's days. A `requires` here is met by every caller, since a table and a call's numbers are tested before
// they are used: the public calls refuse, and nothing above this crate hands on what it has not tested.
#![tactic(auto)]

ghost use Rattle.std.specs.Prelude.{◌≡◌, ◌+◌, ◌-◌, ◌<◌, ◌≤◌, ◌^◌, length, get_or, set, pos};
ghost use lib.IntN.{sub_ℕ};
ghost use Rattle.numbers.specs.Naturals.{nat_of};
ghost use Rattle.numbers.specs.InnerEnergies.{bias_of, energy_of};
ghost use Rattle.numbers.specs.Shares.{floor_part, partial_energy};

// A number as a natural; a negative one as the marker 2^63, as `nat_of` has it: tests beside it need no branch. By its
// sign: std's `try_from` takes four instructions more for each number of a table that is read.
pub fn natural(x: i64) -> u64
    ensures { (result ≡ nat_of x) × (result ≤ 2 ^ 63) }
{
    if x < 0 {
        0x8000_0000_0000_0000
    } else {
        x.cast_unsigned()
    }
}

// And back.
pub fn integer(n: u64) -> i64
    requires { n < 2 ^ 63 }
    ensures { result ≡ pos n }
{
    n as i64
}

// An energy raised by 1,000,000, so that it is not negative; what is no energy as the marker 2^63, as `bias_of` has
// it.
pub fn bias(e: i64) -> u64
    ensures { result ≡ bias_of e }
{
    if (-1000000..=1000000).contains(&e) {
        return (e + 1000000) as u64;
    }
    0x8000_0000_0000_0000
}

// And back.
pub fn unbias(u: u64) -> i64
    requires { u < 2 ^ 63 }
    ensures { result ≡ energy_of u }
{
    difference(u, 1000000)
}

// a - b, of any sign.
pub fn difference(a: u64, b: u64) -> i64
    requires { (a < 2 ^ 63) × (b < 2 ^ 63) }
    ensures { result ≡ sub_ℕ a b }
{
    a as i64 - b as i64
}

// The number at place i of a table.
pub fn get(t: &[i64], i: usize) -> u64
    requires { i < length t.now }
    ensures { (result ≡ nat_of (get_or t.now i (pos 0))) × (result ≤ 2 ^ 63) }
{
    natural(t[i])
}

// The energy at place i of a table, raised by 1,000,000.
pub fn get_energy(t: &[i64], i: usize) -> u64
    requires { i < length t.now }
    ensures { result ≡ bias_of (get_or t.now i (pos 0)) }
{
    bias(t[i])
}

pub fn put(t: &mut [i64], i: usize, n: u64)
    requires { (i < length t.old) × (n < 2 ^ 63) }
    ensures { t.new ≡ set t.old i (pos n) }
{
    t[i] = integer(n);
}

// The floor part of a total: u is the total, and the result its part, both raised by 1,000,000, so that an unsigned
// division rounds towards minus infinity.
fn floor_part(u: u64, n: u64, k: u64) -> u64
    requires { (u ≤ 2000000) × (0 < n) × (n ≤ 40001) × (k ≤ n) }
    ensures { (energy_of result ≡ floor_part (energy_of u) n k) × (result ≤ 2000000) }
{
    (u * k + 1000000 * (n - k)) / n
}

// The energy of the first k of the n days of an entry: u is the entry's energy and the result that of the days, both
// raised by 1,000,000. It is a ceil part: the energy is turned about, and its floor part turned back.
pub fn partial_energy(u: u64, n: u64, k: u64) -> u64
    requires { (u ≤ 2000000) × (0 < n) × (n ≤ 40001) × (k ≤ n) }
    ensures { (energy_of result ≡ partial_energy (energy_of u) n k) × (result ≤ 2000000) }
{
    2000000 - floor_part(2000000 - u, n, k)
}
