// The register for C. Each function decodes the register's bytes into a table of its own, runs the proved call on that
// and encodes what it gives; no input is excluded. include/petlumas.h says the same in C's words. The C interface has a
// function of its own for each call, with that call's numbers.
#![tactic(auto)]

ghost use Rattle.std.specs.Prelude.{◌≡◌, ◌/◌, length};
ghost use Rattle.calendar.specs.Calendar.{date_call};
ghost use Rattle.daybook.specs.Editions.{editions};
ghost use Rattle.opening.specs.Opening.{fresh_call, open_call};
ghost use Rattle.energy.specs.Energy.{energy_call};
ghost use Rattle.status.specs.Status.{status_call};
ghost use Rattle.transfer.specs.Transfer.{request_call, withdraw_call};
ghost use Rattle.correction.specs.Correction.{correct_call};
ghost use Rattle.account.specs.Account.{account_call};
ghost use Rattle.allocate.specs.Allocate.{allocate_call};
ghost use Rattle.trial.specs.Trial.{trial_call};
ghost use Rattle.images.specs.Images.{save_call, restore_call};
ghost use Rattle.conversion.specs.Conversion.{convert_call};
ghost use Rattle.buffers.specs.Buffers.{table_in, numbers_held, replied, written_bytes, written, image_in};

use calendar::YearMonthDay;
use daybook::{
    AccountQuery, AllocationQuery, Correction, EnergyNotice, NewRegister, Opening, StatusNotice,
    TransferRequest, Withdrawal,
};

pub fn petlumas_fresh(
    register: &mut [u8],
    answer: &mut [u8],
    nondaily: i64,
    daily: i64,
    edition: i64,
) -> i64
    ensures { (result, (register.new, answer.new)) ≡ written (fresh_call editions (table_in register.old) (record { nondaily = nondaily; daily = daily; edition = edition })) register.old answer.old }
{
    let n = NewRegister {
        nondaily,
        daily,
        edition,
    };
    let mut t = [0i64; places::TABLE_LENGTH];
    let table = buffers::table_in(register, &mut t);
    let a = opening::fresh(table, n);
    let numbers = daybook::notice_numbers(a);
    buffers::finish(register, answer, table, &numbers)
}

pub fn petlumas_open(
    register: &mut [u8],
    answer: &mut [u8],
    mirn: i64,
    kind: i64,
    user: i64,
    install: i64,
    base: i64,
    section: i64,
    operator: i64,
) -> i64
    ensures { (result, (register.new, answer.new)) ≡ written (open_call editions (table_in register.old) (record { mirn = mirn; kind = kind; user = user; install = install; base = base; section = section; operator = operator })) register.old answer.old }
{
    let n = Opening {
        mirn,
        kind,
        user,
        install,
        base,
        section,
        operator,
    };
    let mut t = [0i64; places::TABLE_LENGTH];
    let table = buffers::table_in(register, &mut t);
    let a = opening::open(table, n);
    let numbers = daybook::notice_numbers(a);
    buffers::finish(register, answer, table, &numbers)
}

pub fn petlumas_energy(
    register: &mut [u8],
    answer: &mut [u8],
    mirn: i64,
    start: i64,
    end: i64,
    energy: i64,
    type_: i64,
    confirmed: i64,
) -> i64
    ensures { (result, (register.new, answer.new)) ≡ written (energy_call editions (table_in register.old) (record { mirn = mirn; start = start; end = end; energy = energy; type_ = type_; confirmed = confirmed })) register.old answer.old }
{
    let n = EnergyNotice {
        mirn,
        start,
        end,
        energy,
        type_,
        confirmed,
    };
    let mut t = [0i64; places::TABLE_LENGTH];
    let table = buffers::table_in(register, &mut t);
    let a = energy::energy(table, n);
    let numbers = daybook::energy_numbers(a);
    buffers::finish(register, answer, table, &numbers)
}

pub fn petlumas_status(register: &mut [u8], answer: &mut [u8], mirn: i64, day: i64, on: i64) -> i64
    ensures { (result, (register.new, answer.new)) ≡ written (status_call editions (table_in register.old) (record { mirn = mirn; day = day; on = on })) register.old answer.old }
{
    let n = StatusNotice { mirn, day, on };
    let mut t = [0i64; places::TABLE_LENGTH];
    let table = buffers::table_in(register, &mut t);
    let a = status::status(table, n);
    let numbers = daybook::notice_numbers(a);
    buffers::finish(register, answer, table, &numbers)
}

pub fn petlumas_request(
    register: &mut [u8],
    answer: &mut [u8],
    holidays: &[u8],
    mirn: i64,
    user: i64,
    proposed: i64,
    nochange: i64,
) -> i64
    ensures { (result, (register.new, answer.new)) ≡ written (request_call editions (table_in register.old) (record { mirn = mirn; user = user; proposed = proposed; nochange = nochange }) (numbers_held holidays.now)) register.old answer.old }
{
    let n = TransferRequest {
        mirn,
        user,
        proposed,
        nochange,
    };
    let mut t = [0i64; places::TABLE_LENGTH];
    let table = buffers::table_in(register, &mut t);
    let mut list = [0i64; 513];
    let days = buffers::list_in(holidays, &mut list);
    let a = transfer::request(table, n, days);
    let numbers = daybook::request_numbers(a);
    buffers::finish(register, answer, table, &numbers)
}

pub fn petlumas_withdraw(register: &mut [u8], answer: &mut [u8], mirn: i64, user: i64) -> i64
    ensures { (result, (register.new, answer.new)) ≡ written (withdraw_call editions (table_in register.old) (record { mirn = mirn; user = user })) register.old answer.old }
{
    let n = Withdrawal { mirn, user };
    let mut t = [0i64; places::TABLE_LENGTH];
    let table = buffers::table_in(register, &mut t);
    let a = transfer::withdraw(table, n);
    let numbers = daybook::notice_numbers(a);
    buffers::finish(register, answer, table, &numbers)
}

pub fn petlumas_correct(
    register: &mut [u8],
    answer: &mut [u8],
    mirn: i64,
    user: i64,
    day: i64,
    notice: i64,
) -> i64
    ensures { (result, (register.new, answer.new)) ≡ written (correct_call editions (table_in register.old) (record { mirn = mirn; user = user; day = day; notice = notice })) register.old answer.old }
{
    let n = Correction {
        mirn,
        user,
        day,
        notice,
    };
    let mut t = [0i64; places::TABLE_LENGTH];
    let table = buffers::table_in(register, &mut t);
    let a = correction::correct(table, n);
    let numbers = daybook::correction_numbers(a);
    buffers::finish(register, answer, table, &numbers)
}

pub fn petlumas_account(register: &[u8], answer: &mut [u8], user: i64, from: i64, to: i64) -> i64
    ensures { (result, answer.new) ≡ replied (account_call editions (table_in register.now) (record { user = user; from = from; to = to })) answer.old }
{
    let n = AccountQuery { user, from, to };
    let mut t = [0i64; places::TABLE_LENGTH];
    let table = buffers::table_in(register, &mut t);
    let a = account::account(table, n);
    let numbers = daybook::account_numbers(a);
    numbers::integer(buffers::reply(answer, &numbers))
}

// The answer table has as many numbers as `shares` has bytes for.
pub fn petlumas_allocate(
    register: &[u8],
    answer: &mut [u8],
    shares: &mut [u8],
    gasday: i64,
    from: i64,
    to: i64,
    tdq: i64,
    uag: i64,
    clp: i64,
) -> i64
    ensures { (result, (shares.new, answer.new)) ≡ written (allocate_call editions (table_in register.now) (record { gasday = gasday; from = from; to = to; tdq = tdq; uag = uag; clp = clp }) (length shares.old / 8)) shares.old answer.old }
{
    let q = AllocationQuery {
        gasday,
        from,
        to,
        tdq,
        uag,
        clp,
    };
    let mut t = [0i64; places::TABLE_LENGTH];
    let table = buffers::table_in(register, &mut t);
    let mut list = [0i64; 32];
    let room = buffers::room_in(shares, &mut list);
    let a = allocate::allocate(table, q, room);
    let numbers = daybook::allocation_numbers(a);
    buffers::finish(shares, answer, room, &numbers)
}

// The batch and its answers have as many numbers as their buffers have bytes for.
pub fn petlumas_trial(
    register: &[u8],
    answer: &mut [u8],
    notices: &[u8],
    answers: &mut [u8],
    count: i64,
) -> i64
    ensures { (result, (answers.new, answer.new)) ≡ written (trial_call editions (table_in register.now) count (numbers_held notices.now) (length answers.old / 8)) answers.old answer.old }
{
    let mut t = [0i64; places::TABLE_LENGTH];
    let table = buffers::table_in(register, &mut t);
    let mut batch = [0i64; 600];
    let list = buffers::list_in(notices, &mut batch);
    let mut five = [0i64; 500];
    let room = buffers::room_in(answers, &mut five);
    let a = trial::trial(table, count, list, room);
    let given = trial::answers_in(room, count);
    let numbers = daybook::trial_numbers(a);
    buffers::finish(answers, answer, given, &numbers)
}

pub fn petlumas_save(register: &[u8], answer: &mut [u8], image: &mut [u8], state: i64) -> i64
    ensures { (result, (image.new, answer.new)) ≡ written_bytes (save_call editions (table_in register.now) state (image_in image.old answer.old)) image.old answer.old }
{
    let mut t = [0i64; places::TABLE_LENGTH];
    let table = buffers::table_in(register, &mut t);
    let n = buffers::image_room(image, answer);
    let a = images::save(table, state, &mut image[..n]);
    let numbers = daybook::notice_numbers(a);
    numbers::integer(buffers::reply(answer, &numbers))
}

pub fn petlumas_restore(register: &mut [u8], answer: &mut [u8], image: &[u8], state: i64) -> i64
    ensures { (result, (register.new, answer.new)) ≡ written (restore_call editions (table_in register.old) state (image_in image.now answer.old)) register.old answer.old }
{
    let mut t = [0i64; places::TABLE_LENGTH];
    let table = buffers::table_in(register, &mut t);
    let n = buffers::image_room(image, answer);
    let a = images::restore(table, state, &image[..n]);
    let numbers = daybook::notice_numbers(a);
    buffers::finish(register, answer, table, &numbers)
}

// The register in the other edition, in a second buffer.
pub fn petlumas_convert(register: &[u8], answer: &mut [u8], other: &mut [u8]) -> i64
    ensures { (result, (other.new, answer.new)) ≡ written (convert_call editions (table_in register.now) (table_in other.old)) other.old answer.old }
{
    let mut t = [0i64; places::TABLE_LENGTH];
    let table = buffers::table_in(register, &mut t);
    let mut u = [0i64; places::TABLE_LENGTH];
    let second = buffers::table_in(other, &mut u);
    let a = conversion::convert(table, second);
    let numbers = daybook::notice_numbers(a);
    buffers::finish(other, answer, second, &numbers)
}

pub fn petlumas_date(answer: &mut [u8], year: i64, month: i64, day: i64) -> i64
    ensures { (result, answer.new) ≡ replied (date_call year month day) answer.old }
{
    let a = calendar::date(YearMonthDay { year, month, day });
    let numbers = daybook::date_numbers(a);
    numbers::integer(buffers::reply(answer, &numbers))
}
