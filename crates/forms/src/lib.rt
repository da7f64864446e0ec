// The form of each call's line in a journal.
#![tactic(auto)]

ghost use Rattle.std.specs.Prelude.{◌≡◌, ◌≤◌, ◌^◌, eqb, length};
ghost use Rattle.numbers.specs.Naturals.{nat_of};
ghost use Rattle.daybook.specs.FromNumbers.{num};
ghost use Rattle.forms.specs.Forms.{shape_of, transfer_form, notice_form, query_form, form_of, own_numbers, size_of};
ghost use Rattle.forms.specs.InnerForms.{Formed};

use journal::{CallWord, NoticeWord, QueryWord, TransferWord};

// How many numbers a call and its answer have; whether a list follows the call's numbers, with its count in front; and
// whether an answer table is lent.
#[derive(Clone, Copy)]
pub struct Form {
    pub takes: usize,
    pub gives: usize,
    pub list: bool,
    pub table: bool,
}

fn shape(takes: usize, gives: usize, list: bool, table: bool) -> Form
    requires { (takes ≤ 7) × (gives ≤ 18) }
    ensures { Formed result (shape_of takes gives list table) }
{
    Form {
        takes,
        gives,
        list,
        table,
    }
}

fn transfer_form(w: TransferWord) -> Form
    ensures { Formed result (transfer_form w) }
{
    match w {
        TransferWord::Request => shape(4, 3, true, false),
        TransferWord::Withdraw => shape(2, 1, false, false),
        TransferWord::Correct => shape(4, 17, false, false),
    }
}

fn notice_form(n: NoticeWord) -> Form
    ensures { Formed result (notice_form n) }
{
    match n {
        NoticeWord::Fresh => shape(3, 1, false, false),
        NoticeWord::Open => shape(7, 1, false, false),
        NoticeWord::Energy => shape(6, 5, false, false),
        NoticeWord::Status => shape(3, 1, false, false),
        NoticeWord::Transfer(w) => transfer_form(w),
    }
}

fn query_form(q: QueryWord) -> Form
    ensures { Formed result (query_form q) }
{
    match q {
        QueryWord::Account => shape(3, 2, false, false),
        QueryWord::Allocate => shape(6, 18, false, true),
        QueryWord::Date => shape(3, 2, false, false),
    }
}

pub fn form_of(call: CallWord) -> Form
    ensures { Formed result (form_of call) }
{
    match call {
        CallWord::Notice(n) => notice_form(n),
        CallWord::Query(q) => query_form(q),
    }
}

// Number i of a line as a natural, 0 where the line is shorter.
pub fn natural(nums: &[i64], i: usize) -> u64
    ensures { (result ≡ nat_of (num nums.now i)) × (result ≤ 2 ^ 63) }
{
    nums.get(i).map_or(0, |x| numbers::natural(*x))
}

// The numbers of a line up to its list.
pub fn own_numbers(f: Form) -> usize
    requires { f.takes ≤ 7 }
    ensures { (result ≡ own_numbers f) × (result ≤ 8) }
{
    if f.list { f.takes + 1 } else { f.takes }
}

// All its numbers.
fn size(f: Form, nums: &[i64]) -> u64
    requires { f.takes ≤ 7 }
    ensures { result ≡ size_of f nums.now }
{
    let own = own_numbers(f) as u64;
    if f.list {
        own + natural(nums, f.takes)
    } else {
        own
    }
}

// Whether a line has the numbers of its form.
pub fn counted(f: Form, nums: &[i64]) -> bool
    requires { f.takes ≤ 7 }
    ensures { result ≡ eqb (length nums.now) (size_of f nums.now) }
{
    nums.len() as u64 == size(f, nums)
}
