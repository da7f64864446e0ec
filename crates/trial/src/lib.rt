// trial: what entering a batch of energy notices would answer (document 02, i). It works on a copy of its own:
// soundness is tested once, and then each notice is entered by the function that energy enters it by.
#![tactic(auto)]

ghost use Rattle.std.specs.Prelude.{◌≡◌, true, ◌+◌, ◌*◌, ◌≤◌, pos, length, take, drop};
ghost use Rattle.numbers.specs.Naturals.{nat_of};
ghost use Rattle.daybook.specs.Calls.{energy_numbers, trial_numbers};
ghost use Rattle.daybook.specs.Editions.{editions};
ghost use Rattle.daybook.specs.FromNumbers.{energy_notice_of};
ghost use Rattle.daybook.specs.Trials.{notices_in, removed_in, batch_fits};
ghost use Rattle.layout.specs.Layout.{Fits, table_book};
ghost use Rattle.layout.specs.Sound.{sound};
ghost use Rattle.layout.specs.Calls.{placed};
ghost use Rattle.trial.specs.InnerTrial.{SmallNumbers, Tried, TriedAll, Triable};
ghost use Rattle.trial.specs.Trial.{trial_call};

use daybook::{Edition, EnergyEntry, EnergyNotice, TrialCounts};
use refusals::Refusal;
use table::Register;

// A batch has at most so many notices.
const MOST_NOTICES: usize = 100;

// The numbers of a notice and of its answer.
const NOTICE_LENGTH: usize = 6;

const ANSWER_LENGTH: usize = 5;

// Is this a batch, with tables of these lengths?
fn fits(count: i64, given: usize, room: usize) -> bool
    ensures { result ≡ batch_fits count given room }
{
    let n = numbers::natural(count) as usize;
    n <= MOST_NOTICES && NOTICE_LENGTH * n <= given && ANSWER_LENGTH * n <= room
}

// Notice k of the batch.
fn notice_at(notices: &[i64], k: usize) -> EnergyNotice
    requires { 6 * k + 6 ≤ length notices.now }
    ensures { result ≡ energy_notice_of (drop (6 * k) notices.now) }
{
    let at = NOTICE_LENGTH * k;
    EnergyNotice {
        mirn: notices[at],
        start: notices[at + 1],
        end: notices[at + 2],
        energy: notices[at + 3],
        type_: notices[at + 4],
        confirmed: notices[at + 5],
    }
}

// Writes an answer's numbers, and gives the third: how many records were removed.
fn put_answer(answer: &mut [i64], a: Result<EnergyEntry, Refusal>) -> u64
    requires { (length answer.old ≡ 5) × SmallNumbers (energy_numbers a) }
    ensures { (answer.new ≡ energy_numbers a) × (pos result ≡ removed_in (energy_numbers a)) }
{
    let numbers = daybook::energy_numbers(a);
    answer.copy_from_slice(&numbers.map(|number| number.cast_signed()));
    numbers[2]
}

// Enters one notice, writes its answer and says how many records it removed.
fn try_one(t: &mut [i64], ed: Edition, n: EnergyNotice, answer: &mut [i64]) -> u64
    requires { Fits ed × (sound ed t.old ≡ true) × (length answer.old ≡ 5) }
    ensures { Tried ed n (table_book ed t.old) t.new answer.new result }
{
    let a = energy::enter_in_sound(t, ed, n);
    put_answer(answer, a)
}

// Enters the batch, and writes the answers.
fn try_all(
    t: &mut [i64],
    ed: Edition,
    count: usize,
    notices: &[i64],
    answers: &mut [i64],
) -> TrialCounts
    requires { Triable ed t.old count notices.now answers.old }
    ensures { TriedAll ed (notices_in count notices.now) (table_book ed t.old) answers.old answers.new result.most result.removed }
{
    let register = Register {
        table: t,
        edition: ed,
    };
    let mut most = register.most_records();
    let mut removed: u64 = 0;
    for k in 0..count {
        let a = ANSWER_LENGTH * k;
        let b = a + ANSWER_LENGTH;
        removed += try_one(t, ed, notice_at(notices, k), &mut answers[a..b]);
        let register = Register {
            table: t,
            edition: ed,
        };
        most = most.max(register.most_records());
    }
    TrialCounts {
        most: most as u64,
        removed,
    }
}

// On any table, any count and any batch, with an answer table of any length; the table is only read.
pub fn trial(
    t: &[i64],
    count: i64,
    notices: &[i64],
    answers: &mut [i64],
) -> Result<TrialCounts, Refusal>
    ensures { (trial_numbers result ≡ (trial_call editions t.now count notices.now (length answers.old)).0) × (answers.new ≡ placed (trial_call editions t.now count notices.now (length answers.old)).1 answers.old) }
{
    let register = Register::of(t)?;
    if !fits(count, notices.len(), answers.len()) {
        return Err(Refusal::OutOfRange);
    }
    let mut own = [0i64; places::TABLE_LENGTH];
    rows::copy_first(&mut own, register.table, places::TABLE_LENGTH);
    let n = numbers::natural(count) as usize;
    Ok(try_all(&mut own, register.edition, n, notices, answers))
}

// The numbers of a batch's answers in an answer table; all, where it has fewer.
pub fn answers_in(answers: &[i64], count: i64) -> &[i64]
    ensures { (result.now ≡ take (5 * nat_of count) answers.now) × (length result.now ≤ length answers.now) }
{
    let n = numbers::natural(count);
    let most = answers.len() / ANSWER_LENGTH;
    if (most as u64) < n {
        return answers;
    }
    let end = ANSWER_LENGTH * n as usize;
    &answers[..end]
}
