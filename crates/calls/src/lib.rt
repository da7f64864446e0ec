// The calls of the register as a journal has them: the function exported for C that each one is. A call's numbers are
// the first of a line; where the line is shorter, 0.
#![tactic(auto)]

ghost use Rattle.std.specs.Prelude.{◌≡◌, ◌/◌, length};
ghost use Rattle.daybook.specs.FromNumbers.{num};
ghost use Rattle.buffers.specs.Buffers.{table_in, numbers_held, written};
ghost use Rattle.calls.specs.Calls.{transferred, noticed, asked, called};
ghost use Rattle.calls.specs.InnerCalls.{seven_of};

use journal::{CallWord, NoticeWord, QueryWord, TransferWord};

// Number i of a line.
fn number(nums: &[i64], i: usize) -> i64
    ensures { result ≡ num nums.now i }
{
    nums.get(i).copied().unwrap_or(0)
}

// The numbers of a call, which has seven at most.
fn first_seven(nums: &[i64]) -> [i64; 7]
    ensures { result ≡ seven_of nums.now }
{
    [
        number(nums, 0),
        number(nums, 1),
        number(nums, 2),
        number(nums, 3),
        number(nums, 4),
        number(nums, 5),
        number(nums, 6),
    ]
}

// A notice of a transfer with the numbers a, through its exported function.
fn transfer(
    w: TransferWord,
    a: [i64; 7],
    list: &[u8],
    register: &mut [u8],
    answer: &mut [u8],
) -> i64
    ensures { (result, (register.new, answer.new)) ≡ written (transferred w (table_in register.old) a (numbers_held list.now)) register.old answer.old }
{
    match w {
        TransferWord::Request => {
            hub::petlumas_request(register, answer, list, a[0], a[1], a[2], a[3])
        }
        TransferWord::Withdraw => hub::petlumas_withdraw(register, answer, a[0], a[1]),
        TransferWord::Correct => hub::petlumas_correct(register, answer, a[0], a[1], a[2], a[3]),
    }
}

// Any notice.
fn notify(n: NoticeWord, a: [i64; 7], list: &[u8], register: &mut [u8], answer: &mut [u8]) -> i64
    ensures { (result, (register.new, answer.new)) ≡ written (noticed n (table_in register.old) a (numbers_held list.now)) register.old answer.old }
{
    match n {
        NoticeWord::Fresh => hub::petlumas_fresh(register, answer, a[0], a[1], a[2]),
        NoticeWord::Open => {
            hub::petlumas_open(register, answer, a[0], a[1], a[2], a[3], a[4], a[5], a[6])
        }
        NoticeWord::Energy => {
            hub::petlumas_energy(register, answer, a[0], a[1], a[2], a[3], a[4], a[5])
        }
        NoticeWord::Status => hub::petlumas_status(register, answer, a[0], a[1], a[2]),
        NoticeWord::Transfer(w) => transfer(w, a, list, register, answer),
    }
}

// And a query.
fn ask(q: QueryWord, a: [i64; 7], register: &[u8], answer: &mut [u8], table: &mut [u8]) -> i64
    ensures { (result, (table.new, answer.new)) ≡ written (asked q (table_in register.now) a (length table.old / 8)) table.old answer.old }
{
    match q {
        QueryWord::Account => hub::petlumas_account(register, answer, a[0], a[1], a[2]),
        QueryWord::Allocate => {
            hub::petlumas_allocate(register, answer, table, a[0], a[1], a[2], a[3], a[4], a[5])
        }
        QueryWord::Date => hub::petlumas_date(answer, a[0], a[1], a[2]),
    }
}

// A call on the buffers that it is lent.
pub fn invoke(
    call: CallWord,
    nums: &[i64],
    list: &[u8],
    register: &mut [u8],
    answer: &mut [u8],
    table: &mut [u8],
) -> i64
    ensures { called call nums.now list.now register.old answer.old table.old ≡ record { result = result; register = register.new; answer = answer.new; table = table.new } }
{
    let a = first_seven(nums);
    match call {
        CallWord::Notice(n) => notify(n, a, list, register, answer),
        CallWord::Query(q) => ask(q, a, register, answer, table),
    }
}
