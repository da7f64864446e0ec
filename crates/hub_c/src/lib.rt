// The register's C interface: each function of `hub` under its C name, which C asks for one by one.
// include/petlumas.h says in C's words what it does.
#![tactic(auto)]

ghost use Rattle.std.specs.Prelude.{◌≡◌, ◌/◌, length};
ghost use Rattle.calendar.specs.Calendar.{date_call};
ghost use Rattle.daybook.specs.Editions.{editions};
ghost use Rattle.opening.specs.Opening.{fresh_call, open_call};
ghost use Rattle.energy.specs.Energy.{energy_call};
ghost use Rattle.status.specs.Status.{status_call};
ghost use Rattle.transfer.specs.Transfer.{request_call, withdraw_call};
ghost use Rattle.correction.specs.Correction.{correct_call};
ghost use Rattle.account.specs.Account.{account_call};
ghost use Rattle.allocate.specs.Allocate.{allocate_call};
ghost use Rattle.trial.specs.Trial.{trial_call};
ghost use Rattle.images.specs.Images.{save_call, restore_call};
ghost use Rattle.conversion.specs.Conversion.{convert_call};
ghost use Rattle.buffers.specs.Buffers.{table_in, numbers_held, replied, written_bytes, written, image_in};

#[unsafe(no_mangle)]
pub extern "C" fn petlumas_fresh(
    register: &mut [u8],
    answer: &mut [u8],
    nondaily: i64,
    daily: i64,
    edition: i64,
) -> i64
    ensures { (result, (register.new, answer.new)) ≡ written (fresh_call editions (table_in register.old) (record { nondaily = nondaily; daily = daily; edition = edition })) register.old answer.old }
{
    hub::petlumas_fresh(register, answer, nondaily, daily, edition)
}

#[unsafe(no_mangle)]
pub extern "C" fn petlumas_open(
    register: &mut [u8],
    answer: &mut [u8],
    mirn: i64,
    kind: i64,
    user: i64,
    install: i64,
    base: i64,
    section: i64,
    operator: i64,
) -> i64
    ensures { (result, (register.new, answer.new)) ≡ written (open_call editions (table_in register.old) (record { mirn = mirn; kind = kind; user = user; install = install; base = base; section = section; operator = operator })) register.old answer.old }
{
    hub::petlumas_open(
        register, answer, mirn, kind, user, install, base, section, operator,
    )
}

#[unsafe(no_mangle)]
pub extern "C" fn petlumas_energy(
    register: &mut [u8],
    answer: &mut [u8],
    mirn: i64,
    start: i64,
    end: i64,
    energy: i64,
    type_: i64,
    confirmed: i64,
) -> i64
    ensures { (result, (register.new, answer.new)) ≡ written (energy_call editions (table_in register.old) (record { mirn = mirn; start = start; end = end; energy = energy; type_ = type_; confirmed = confirmed })) register.old answer.old }
{
    hub::petlumas_energy(register, answer, mirn, start, end, energy, type_, confirmed)
}

#[unsafe(no_mangle)]
pub extern "C" fn petlumas_status(
    register: &mut [u8],
    answer: &mut [u8],
    mirn: i64,
    day: i64,
    on: i64,
) -> i64
    ensures { (result, (register.new, answer.new)) ≡ written (status_call editions (table_in register.old) (record { mirn = mirn; day = day; on = on })) register.old answer.old }
{
    hub::petlumas_status(register, answer, mirn, day, on)
}

#[unsafe(no_mangle)]
pub extern "C" fn petlumas_request(
    register: &mut [u8],
    answer: &mut [u8],
    holidays: &[u8],
    mirn: i64,
    user: i64,
    proposed: i64,
    nochange: i64,
) -> i64
    ensures { (result, (register.new, answer.new)) ≡ written (request_call editions (table_in register.old) (record { mirn = mirn; user = user; proposed = proposed; nochange = nochange }) (numbers_held holidays.now)) register.old answer.old }
{
    hub::petlumas_request(register, answer, holidays, mirn, user, proposed, nochange)
}

#[unsafe(no_mangle)]
pub extern "C" fn petlumas_withdraw(
    register: &mut [u8],
    answer: &mut [u8],
    mirn: i64,
    user: i64,
) -> i64
    ensures { (result, (register.new, answer.new)) ≡ written (withdraw_call editions (table_in register.old) (record { mirn = mirn; user = user })) register.old answer.old }
{
    hub::petlumas_withdraw(register, answer, mirn, user)
}

#[unsafe(no_mangle)]
pub extern "C" fn petlumas_correct(
    register: &mut [u8],
    answer: &mut [u8],
    mirn: i64,
    user: i64,
    day: i64,
    notice: i64,
) -> i64
    ensures { (result, (register.new, answer.new)) ≡ written (correct_call editions (table_in register.old) (record { mirn = mirn; user = user; day = day; notice = notice })) register.old answer.old }
{
    hub::petlumas_correct(register, answer, mirn, user, day, notice)
}

#[unsafe(no_mangle)]
pub extern "C" fn petlumas_account(
    register: &[u8],
    answer: &mut [u8],
    user: i64,
    from: i64,
    to: i64,
) -> i64
    ensures { (result, answer.new) ≡ replied (account_call editions (table_in register.now) (record { user = user; from = from; to = to })) answer.old }
{
    hub::petlumas_account(register, answer, user, from, to)
}

#[unsafe(no_mangle)]
pub extern "C" fn petlumas_allocate(
    register: &[u8],
    answer: &mut [u8],
    shares: &mut [u8],
    gasday: i64,
    from: i64,
    to: i64,
    tdq: i64,
    uag: i64,
    clp: i64,
) -> i64
    ensures { (result, (shares.new, answer.new)) ≡ written (allocate_call editions (table_in register.now) (record { gasday = gasday; from = from; to = to; tdq = tdq; uag = uag; clp = clp }) (length shares.old / 8)) shares.old answer.old }
{
    hub::petlumas_allocate(register, answer, shares, gasday, from, to, tdq, uag, clp)
}

#[unsafe(no_mangle)]
pub extern "C" fn petlumas_trial(
    register: &[u8],
    answer: &mut [u8],
    notices: &[u8],
    answers: &mut [u8],
    count: i64,
) -> i64
    ensures { (result, (answers.new, answer.new)) ≡ written (trial_call editions (table_in register.now) count (numbers_held notices.now) (length answers.old / 8)) answers.old answer.old }
{
    hub::petlumas_trial(register, answer, notices, answers, count)
}

#[unsafe(no_mangle)]
pub extern "C" fn petlumas_save(
    register: &[u8],
    answer: &mut [u8],
    image: &mut [u8],
    state: i64,
) -> i64
    ensures { (result, (image.new, answer.new)) ≡ written_bytes (save_call editions (table_in register.now) state (image_in image.old answer.old)) image.old answer.old }
{
    hub::petlumas_save(register, answer, image, state)
}

#[unsafe(no_mangle)]
pub extern "C" fn petlumas_restore(
    register: &mut [u8],
    answer: &mut [u8],
    image: &[u8],
    state: i64,
) -> i64
    ensures { (result, (register.new, answer.new)) ≡ written (restore_call editions (table_in register.old) state (image_in image.now answer.old)) register.old answer.old }
{
    hub::petlumas_restore(register, answer, image, state)
}

#[unsafe(no_mangle)]
pub extern "C" fn petlumas_convert(register: &[u8], answer: &mut [u8], other: &mut [u8]) -> i64
    ensures { (result, (other.new, answer.new)) ≡ written (convert_call editions (table_in register.now) (table_in other.old)) other.old answer.old }
{
    hub::petlumas_convert(register, answer, other)
}

#[unsafe(no_mangle)]
pub extern "C" fn petlumas_date(answer: &mut [u8], year: i64, month: i64, day: i64) -> i64
    ensures { (result, answer.new) ≡ replied (date_call year month day) answer.old }
{
    hub::petlumas_date(answer, year, month, day)
}
