// The reserves of the four operators (document 02, g): how many points each holds, and how many of those reserved for
// it are unfilled, in the table's edition or in the one that it is to be converted to (k).
#![tactic(auto)]

ghost use Rattle.std.specs.Prelude.{◌≡◌, cond, ◌≤◌, eqb, length};
ghost use Rattle.daybook.specs.Notices.{held as held_by, unfilled as unfilled_of, over_four, others_unfilled};
ghost use Rattle.lists.specs.Lists.{operator_of};
ghost use Rattle.layout.specs.Places.{operator_place, recs_place};
ghost use Rattle.layout.specs.Layout.{Fits, num_at};
ghost use Rattle.table.specs.InnerRegisters.{operators};

use daybook::Edition;
use table::Register;

// A point's operator, as the book has it: 0, which stands in an older register, is 1.
pub fn operator(p: &[i64]) -> u64
    requires { recs_place ≤ length p.now }
    ensures { result ≡ operator_of (num_at p.now operator_place) }
{
    let o = numbers::get(p, places::OPERATOR);
    if o == 0 {
        return 1;
    }
    o
}

// How many points operator o holds.
fn held(register: &Register, o: u64) -> usize
    ensures { (result ≡ held_by (operators register.now) o) × (result ≤ register.now.edition.points) }
{
    let mut count: usize = 0;
    for i in 0..register.points() {
        count += usize::from(operator(register.part(i)) == o);
    }
    count
}

// How many points operator o has yet to open, of those that the edition `to` reserves for it.
fn unfilled(register: &Register, to: Edition, o: u64) -> usize
    ensures { (result ≡ unfilled_of to (operators register.now) o) × (result ≤ to.reserve) }
{
    to.reserve.saturating_sub(held(register, o))
}

// The same of operator x in the table's own edition, and 0 where that is o.
fn unless_own(register: &Register, x: u64, o: u64) -> usize
    ensures { (result ≡ cond (eqb x o) 0 (unfilled_of register.now.edition (operators register.now) x)) × (result ≤ register.now.edition.reserve) }
{
    if x == o {
        return 0;
    }
    unfilled(register, register.edition, x)
}

// The unfilled reserves of the operators other than o, a term each, as `over_four` has them.
pub fn others_unfilled(register: &Register, o: u64) -> usize
    ensures { result ≡ others_unfilled register.now.edition (operators register.now) o }
{
    unless_own(register, 1, o)
        + unless_own(register, 2, o)
        + unless_own(register, 3, o)
        + unless_own(register, 4, o)
}

// The unfilled reserves of all four, in the edition `to`. As a chain over the four two goals of the sum stayed open.
pub fn all_unfilled(register: &Register, to: Edition) -> usize
    requires { Fits to }
    ensures { (result ≡ over_four (unfilled_of to (operators register.now))) × (result ≤ 32) }
{
    unfilled(register, to, 1)
        + unfilled(register, to, 2)
        + unfilled(register, to, 3)
        + unfilled(register, to, 4)
}
