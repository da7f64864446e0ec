// The text of a journal: the words of a line, what its first word asks for, and numbers.
#![tactic(auto)]

ghost use Rattle.std.specs.Prelude.{◌≡◌, ◌+◌, ◌*◌, ◌≤◌, length, drop};
ghost use Rattle.journal.specs.Text.{value_of_digits, number_of, value_of, words_of, numbers_of, read_into, taken_count};
ghost use Rattle.journal.specs.InnerText.{fitting, Skipped, Ended};
ghost use Rattle.journal.specs.Names.{command_named, named_on_bytes};

use CallWord::{Notice, Query};
use NoticeWord::Transfer;
use std::str;

// The notices, which may change a register.
#[derive(Clone, Copy)]
pub enum NoticeWord {
    Fresh,
    Open,
    Energy,
    Status,
    Transfer(TransferWord),
}

// Those that concern a point's transfer to another User.
#[derive(Clone, Copy)]
pub enum TransferWord {
    Request,
    Withdraw,
    Correct,
}

// The calls that change none.
#[derive(Clone, Copy)]
pub enum QueryWord {
    Account,
    Allocate,
    Date,
}

#[derive(Clone, Copy)]
pub enum CallWord {
    Notice(NoticeWord),
    Query(QueryWord),
}

// The lines on the images of states. Poke is `imgpoke`, and Sums is `image`.
#[derive(Clone, Copy)]
pub enum ImageWord {
    Save,
    Restore,
    Poke,
    Sums,
}

// What a word of a journal asks for: a call, or a line of the journal's own. Lend is `tlen`, and Room is `alen`; the
// word after `hub` names a call on bytes.
#[derive(Clone, Copy)]
pub enum Command {
    Call(CallWord),
    Look,
    Table,
    Poke,
    Lend,
    Room,
    Hub,
    Unknown,
    Image(ImageWord),
    Convert,
    Trial,
}

// The number that a run of digits stands for, if it is below 2^64.
#[tactic(auto, using(crate::proofs::Numbers::digit_steps))]
fn magnitude(digits: &[u8]) -> Option<u64>
    ensures { result ≡ fitting (value_of_digits digits.now) }
{
    if digits.is_empty() {
        return None;
    }
    let mut n: u64 = 0;
    for b in digits {
        if !b.is_ascii_digit() {
            return None;
        }
        n = n.checked_mul(10)?.checked_add(u64::from(*b - b'0'))?;
    }
    Some(n)
}

// The number that a word stands for.
pub fn number(s: &[u8]) -> Option<i64>
    ensures { value_of result ≡ number_of s.now }
{
    match s.strip_prefix(b"-") {
        Some(digits) => 0i64.checked_sub_unsigned(magnitude(digits)?),
        None => i64::try_from(magnitude(s)?).ok(),
    }
}

// The first place from at on that holds no space.
pub fn skip(line: &[u8], at: usize) -> usize
    requires { at ≤ length line.now }
    ensures { Skipped line.now at result }
{
    match line[at..].iter().position(|b| *b != b' ') {
        Some(n) => at + n,
        None => line.len(),
    }
}

// The first place from at on that holds a space.
pub fn word_end(line: &[u8], at: usize) -> usize
    requires { at ≤ length line.now }
    ensures { Ended line.now at result }
{
    match line[at..].iter().position(|b| *b == b' ') {
        Some(n) => at + n,
        None => line.len(),
    }
}

// What a word asks for.
#[tactic(auto, using(crate::proofs::Names::same_bytes_other), unfolding(crate::specs::Names::command_named, crate::specs::Names::same_bytes))]
pub fn named(w: &[u8]) -> Command
    ensures { result ≡ command_named w.now }
{
    let Ok(word) = str::from_utf8(w) else {
        return Command::Unknown;
    };
    match word {
        "request" => Command::Call(Notice(Transfer(TransferWord::Request))),
        "withdraw" => Command::Call(Notice(Transfer(TransferWord::Withdraw))),
        "correct" => Command::Call(Notice(Transfer(TransferWord::Correct))),
        "fresh" => Command::Call(Notice(NoticeWord::Fresh)),
        "open" => Command::Call(Notice(NoticeWord::Open)),
        "energy" => Command::Call(Notice(NoticeWord::Energy)),
        "status" => Command::Call(Notice(NoticeWord::Status)),
        "account" => Command::Call(Query(QueryWord::Account)),
        "allocate" => Command::Call(Query(QueryWord::Allocate)),
        "date" => Command::Call(Query(QueryWord::Date)),
        "save" => Command::Image(ImageWord::Save),
        "restore" => Command::Image(ImageWord::Restore),
        "imgpoke" => Command::Image(ImageWord::Poke),
        "image" => Command::Image(ImageWord::Sums),
        "look" => Command::Look,
        "table" => Command::Table,
        "poke" => Command::Poke,
        "tlen" => Command::Lend,
        "alen" => Command::Room,
        "hub" => Command::Hub,
        "convert" => Command::Convert,
        "trial" => Command::Trial,
        _ => Command::Unknown,
    }
}

// What the word after `hub` asks for.
#[tactic(auto, using(crate::proofs::Names::same_bytes_other), unfolding(crate::specs::Names::named_on_bytes, crate::specs::Names::same_bytes))]
pub fn named_on_bytes(w: &[u8]) -> Command
    ensures { result ≡ named_on_bytes w.now }
{
    let Ok(word) = str::from_utf8(w) else {
        return Command::Unknown;
    };
    match word {
        "account" => Command::Call(Query(QueryWord::Account)),
        "allocate" => Command::Call(Query(QueryWord::Allocate)),
        "energy" => Command::Call(Notice(NoticeWord::Energy)),
        _ => Command::Unknown,
    }
}

// Reads the words from at on as numbers. Their count is its answer, and so it is kept beside them.
pub fn take_numbers(line: &[u8], at: usize, nums: &mut [i64]) -> Option<usize>
    requires { (at ≤ length line.now) × (length line.now ≤ at + 2 * length nums.old) }
    ensures { (read_into result nums.new ≡ numbers_of (words_of (drop at line.now))) × (taken_count result ≤ length nums.old) }
{
    let words = line[at..]
        .split(|b| *b == b' ')
        .filter(|part| !part.is_empty());
    let mut n = 0;
    for word in words {
        nums[n] = number(word)?;
        n += 1;
    }
    Some(n)
}
