// The lines of a journal: each takes its numbers, works on the bytes of the register's buffer and prints its text. It
// answers whether it is a call; one that is none leaves the buffer and prints nothing.
#![tactic(auto)]

ghost use Rattle.std.specs.Prelude.{◌++◌, ◌≡◌, ◌+◌, ◌≤◌, length};
ghost use Rattle.printing.specs.Rows.{row_bytes};
ghost use Rattle.lines.specs.Lines.{buffer_numbers, buffer_bytes, line_numbers, most_room, most_bytes, table_room, call_line, look_line, poke_line, table_line, convertible as Lines·convertible, taken_over, convert_line, line_of, lengths as Lines·lengths, lendable as Lines·lendable, shown, hub_line, Played};

use forms::Form;
use journal::{CallWord, Command};
use printing::Output;

// The register's buffer: the register's numbers and sixteen past them.
pub const BUFFER_NUMBERS: usize = 7704;

pub const BUFFER_BYTES: usize = 61632;

// The numbers of a line, and those of an allocation's answer table, at most.
pub const LINE_NUMBERS: usize = 4096;

pub const MOST_ROOM: usize = 64;

// The bytes of a call's list, of its answer and of its answer table at most.
const LIST_BYTES: usize = 32768;

const ANSWER_BYTES: usize = 144;

const TABLE_BYTES: usize = 512;

// The bytes of an answer or of an answer table at most, where a line says how many.
const MOST_BYTES: usize = 300;

// The numbers of a call's answer table.
fn table_room(f: Form, room: usize) -> usize
    ensures { (result ≡ table_room f room) × (result ≤ room) }
{
    if f.table { room } else { 0 }
}

// A call on the bytes that are lent, with an answer table of `room` numbers.
fn call<const N: usize>(
    call: CallWord,
    register: &mut [u8],
    room: usize,
    nums: &[i64],
    out: &mut Output<N>,
) -> bool
    requires { (room ≤ most_room) × (length nums.now ≤ line_numbers) × (length out.old + row_bytes ≤ N) }
    ensures { Played (call_line call register.old room nums.now) register.old out.old register.new out.new result }
{
    let f = forms::form_of(call);
    if !forms::counted(f, nums) {
        return false;
    }
    let own = forms::own_numbers(f);
    let gives = 8 * f.gives;
    let shares = table_room(f, room);
    let mut list = [0u8; LIST_BYTES];
    let mut answer = [0u8; ANSWER_BYTES];
    let mut table = [0u8; TABLE_BYTES];
    let days = lending::bytes_of(&nums[own..], &mut list);
    let given = lending::filled(shares, -7, &mut table);
    let numbers = &mut answer[0..gives];
    calls::invoke(call, nums, days, register, numbers, given);
    lending::print_row(out, numbers, given);
    true
}

// The part of a point that the look-up hands back: its length and its sums.
fn look<const N: usize>(register: &[u8], nums: &[i64], out: &mut Output<N>) -> bool
    requires { (length register.now ≤ buffer_bytes) × (length out.old + row_bytes ≤ N) }
    ensures { Played (look_line register.now nums.now) register.now out.old register.now out.new result }
{
    if nums.len() != 1 {
        return false;
    }
    let mut t = [0i64; BUFFER_NUMBERS];
    let n = register.len() / 8;
    let numbers = buffers::numbers_in(register, &mut t, n);
    let part = table::look_up(numbers, nums[0]);
    let s = words::sums(part);
    out.row(&[part.len() as u64, s.s1, s.s2]);
    true
}

// The sums of the register, and of the sixteen numbers past it.
fn table<const N: usize>(register: &[u8], nums: &[i64], out: &mut Output<N>) -> bool
    requires { (length register.now ≡ buffer_bytes) × (length out.old + row_bytes ≤ N) }
    ensures { Played (table_line register.now nums.now) register.now out.old register.now out.new result }
{
    if nums.len() != 0 {
        return false;
    }
    let mut t = [0i64; BUFFER_NUMBERS];
    let numbers = buffers::numbers_in(register, &mut t, BUFFER_NUMBERS);
    let all = &numbers[..];
    let s = words::sums(&all[0..places::TABLE_LENGTH]);
    let past = words::sums(&all[places::TABLE_LENGTH..]);
    out.row(&[0, s.s1, s.s2, past.s2]);
    true
}

// Sets one number of the register.
fn poke<const N: usize>(register: &mut [u8], nums: &[i64], out: &mut Output<N>) -> bool
    requires { (length register.old ≡ buffer_bytes) × (length out.old + row_bytes ≤ N) }
    ensures { Played (poke_line register.old nums.now) register.old out.old register.new out.new result }
{
    if nums.len() != 2 {
        return false;
    }
    let place = numbers::get(nums, 0);
    if places::TABLE_LENGTH as u64 <= place {
        return false;
    }
    words::put_word(register, 8 * place as usize, nums[1]);
    out.row(&[0u64]);
    true
}

// Whether a line has the length of a second table.
fn convertible(nums: &[i64]) -> bool
    ensures { result ≡ Lines·convertible nums.now }
{
    let short = forms::natural(nums, 0) <= BUFFER_NUMBERS as u64;
    (nums.len() == 1) & short
}

// Where a conversion is accepted, writes the second table's numbers over the register's.
fn go_on(register: &mut [u8], second: &[u8], res: i64)
    requires { length second.now ≤ length register.old }
    ensures { register.new ≡ taken_over res second.now register.old }
{
    if res != 0 {
        return;
    }
    let mut t = [0i64; places::TABLE_LENGTH];
    let numbers = buffers::table_in(second, &mut t);
    let n = numbers.len();
    words::encode(numbers, 0, register, 0, n);
}

// Converts the lent bytes into a second table; where that is accepted the journal goes on in it.
fn convert<const N: usize>(
    register: &mut [u8],
    lent: usize,
    nums: &[i64],
    out: &mut Output<N>,
) -> bool
    requires { (length register.old ≡ buffer_bytes) × (lent ≤ buffer_numbers) × (length out.old + row_bytes ≤ N) }
    ensures { Played (convert_line register.old lent nums.now) register.old out.old register.new out.new result }
{
    if !convertible(nums) {
        return false;
    }
    let n = 8 * lent;
    let mut bytes = [0u8; BUFFER_BYTES];
    let second = lending::filled(forms::natural(nums, 0) as usize, -5, &mut bytes);
    let mut answer = [0u8; 8];
    let result = hub::petlumas_convert(&register[0..n], &mut answer, second);
    go_on(register, second, result);
    out.row(&[result]);
    true
}

// Any line but tlen, alen, trial, those on bytes and those on images. Table, poke and convert reach the whole buffer.
pub fn answer<const N: usize>(
    command: Command,
    register: &mut [u8],
    lent: usize,
    room: usize,
    nums: &[i64],
    out: &mut Output<N>,
) -> bool
    requires { (length register.old ≡ buffer_bytes) × (lent ≤ buffer_numbers) × (room ≤ most_room) × (length nums.now ≤ line_numbers) × (length out.old + row_bytes ≤ N) }
    ensures { Played (line_of command register.old lent room nums.now) register.old out.old register.new out.new result }
{
    let n = 8 * lent;
    match command {
        Command::Call(c) => call(c, &mut register[0..n], room, nums, out),
        Command::Look => look(&register[0..n], nums, out),
        Command::Table => table(register, nums, out),
        Command::Poke => poke(register, nums, out),
        Command::Convert => convert(register, lent, nums, out),
        _ => false,
    }
}

// How many lengths a line on bytes begins with.
fn lengths(f: Form) -> usize
    ensures { (result ≡ Lines·lengths f) × (result ≤ 3) }
{
    if f.table { 3 } else { 2 }
}

// Whether it has the numbers of its form, and lengths within their bounds.
fn lendable(f: Form, nums: &[i64]) -> bool
    requires { f.takes ≤ 7 }
    ensures { result ≡ Lines·lendable f nums.now }
{
    let counted = nums.len() == lengths(f) + f.takes;
    let register = forms::natural(nums, 0) <= BUFFER_BYTES as u64;
    let answer = forms::natural(nums, 1) <= MOST_BYTES as u64;
    let table = table_room(f, forms::natural(nums, 2) as usize) <= MOST_BYTES;
    counted & (register & (answer & table))
}

// The result, the answer's bytes and those of an answer table.
fn print_bytes<const N: usize>(f: Form, res: i64, answer: &[u8], table: &[u8], out: &mut Output<N>)
    requires { (length answer.now ≤ most_bytes) × (length table.now ≤ most_bytes) × (length out.old + row_bytes ≤ N) }
    ensures text { out.new ≡ out.old ++ shown f res answer.now table.now }
    ensures room { length out.new ≤ length out.old + row_bytes }
{
    out.put(res, b' ');
    if f.table {
        out.put_bytes(answer, b' ');
        out.put_bytes(table, b'\n');
    } else {
        out.put_bytes(answer, b'\n');
    }
}

// A call on buffers of the lengths that the line begins with.
pub fn on_bytes<const N: usize>(
    call: CallWord,
    register: &mut [u8],
    nums: &[i64],
    out: &mut Output<N>,
) -> bool
    requires { (length register.old ≡ buffer_bytes) × (length out.old + row_bytes ≤ N) }
    ensures { Played (hub_line call register.old nums.now) register.old out.old register.new out.new result }
{
    let f = forms::form_of(call);
    if !lendable(f, nums) {
        return false;
    }
    let from = lengths(f);
    let n = forms::natural(nums, 0) as usize;
    let m = forms::natural(nums, 1) as usize;
    let k = table_room(f, forms::natural(nums, 2) as usize);
    let mut answer = [0xAAu8; MOST_BYTES];
    let mut table = [0xAAu8; MOST_BYTES];
    let given = &mut answer[0..m];
    let shares = &mut table[0..k];
    let result = calls::invoke(call, &nums[from..], b"", &mut register[0..n], given, shares);
    print_bytes(f, result, given, shares, out);
    true
}
