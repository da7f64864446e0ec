// The line `trial` of a journal: it takes its numbers, tries a batch of notices on the bytes of the register's buffer
// and prints its text. It answers whether it is a call; one that is none prints nothing.
#![tactic(auto)]

ghost use Rattle.std.specs.Prelude.{◌≡◌, ◌+◌, ◌≤◌, length};
ghost use Rattle.printing.specs.Rows.{row_bytes};
ghost use Rattle.lines.specs.Lines.{buffer_numbers, buffer_bytes, Played};
ghost use Rattle.triallines.specs.TrialLines.{tryable as TrialLines·tryable, trial_line};

use printing::Output;

// The numbers of such a line, and those of the answers, at most.
const MOST_NUMBERS: usize = 608;

const MOST_ROOM: u64 = 512;

// The bytes of the notices and of the answers at most, and those of the call's own answer.
const NOTICES_BYTES: usize = 4848;

const ANSWERS_BYTES: usize = 4096;

const ANSWER_BYTES: usize = 24;

// Whether a line has a count, a length of the answers, and not too many numbers of notices after them.
fn tryable(nums: &[i64]) -> bool
    ensures { result ≡ TrialLines·tryable nums.now }
{
    let room = forms::natural(nums, 1) <= MOST_ROOM;
    (2 <= nums.len()) & ((nums.len() <= MOST_NUMBERS) & room)
}

// A trial on the first numbers of the register's buffer.
pub fn answer<const N: usize>(
    register: &[u8],
    lent: usize,
    nums: &[i64],
    out: &mut Output<N>,
) -> bool
    requires { (length register.now ≡ buffer_bytes) × (lent ≤ buffer_numbers) × (length out.old + row_bytes ≤ N) }
    ensures { Played (trial_line register.now lent nums.now) register.now out.old register.now out.new result }
{
    if !tryable(nums) {
        return false;
    }
    let n = 8 * lent;
    let room = forms::natural(nums, 1) as usize;
    let mut list = [0u8; NOTICES_BYTES];
    let mut table = [0u8; ANSWERS_BYTES];
    let mut answer = [0u8; ANSWER_BYTES];
    let notices = lending::bytes_of(&nums[2..], &mut list);
    let answers = lending::filled(room, -7, &mut table);
    hub::petlumas_trial(&register[0..n], &mut answer, notices, answers, nums[0]);
    lending::print_row(out, &answer, answers);
    true
}
