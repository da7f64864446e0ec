// What is printed: rows of numbers, and bytes, as text.
#![tactic(auto)]

ghost use Rattle.std.specs.Prelude.{◌∷◌, [], ◌++◌, map, cond, ◌≡◌, ◌+◌, ◌*◌, ◌<◌, ◌≤◌, eqb, length};
ghost use Rattle.io.specs.Digits.{hex_digit_ascii};
ghost use Rattle.printing.specs.Rows.{text_of, row_of, unknown_of, hex_digits, hex_of};

mod number;

use arrayvec::ArrayVec;
use itoa::Buffer;
pub use number::Number;
use std::marker::Model;

// The room that a caller keeps for a row.
pub const ROW_BYTES: usize = 12288;

// What is printed and waits to be written, N bytes at most.
#[derive(Drop)]
pub struct Output<const N: usize> {
    bytes: ArrayVec<u8, N>,
}

impl<const N: usize> Model for Output<N> {
    ghost use Rattle.std.specs.Prelude.{ℕ, List};

    ghost Value = { List ℕ };

    ghost view = { λ o. o.bytes.items };
}

// The byte after a number of a row that `left` others follow.
fn separator(left: usize) -> u8
    ensures { result ≡ cond (eqb left 0) 10 32 }
{
    if left == 0 { b'\n' } else { b' ' }
}

fn digit(d: u8) -> u8
    requires { d < 16 }
    ensures { result ≡ hex_digit_ascii d }
{
    if d < 10 { b'0' + d } else { b'a' + (d - 10) }
}

// Appends a number in base ten.
fn append_number<T: Number, const N: usize>(bytes: &mut ArrayVec<u8, N>, x: T)
    requires { length bytes.old.items + 20 ≤ N }
    ensures text { bytes.new.items ≡ bytes.old.items ++ text_of (T.value x) }
    ensures room { length bytes.new.items ≤ length bytes.old.items + 20 }
{
    if x.is_negative() {
        bytes.push(b'-');
    }
    bytes
        .try_extend_from_slice(Buffer::new().format(x.amount()).as_bytes())
        .unwrap();
}

// Appends a number in base ten, and the byte after it.
fn append<T: Number, const N: usize>(bytes: &mut ArrayVec<u8, N>, x: T, after: u8)
    requires { length bytes.old.items + 21 ≤ N }
    ensures text { bytes.new.items ≡ bytes.old.items ++ (text_of (T.value x) ++ (after ∷ [])) }
    ensures room { length bytes.new.items ≤ length bytes.old.items + 21 }
{
    append_number(bytes, x);
    bytes.push(after);
}

impl<const N: usize> Output<N> {
    pub fn new() -> Self
        ensures { result ≡ [] }
    {
        Output {
            bytes: ArrayVec::new(),
        }
    }

    pub fn len(&self) -> usize
        ensures { (result ≡ length self.now) × (result ≤ N) }
    {
        self.bytes.len()
    }

    pub fn as_bytes(&self) -> &[u8]
        ensures { result.now ≡ self.now }
    {
        self.bytes.as_slice()
    }

    pub fn clear(&mut self)
        ensures { self.new ≡ [] }
    {
        self.bytes.clear();
    }

    // A number in base ten, and the byte after it.
    pub fn put<T: Number>(&mut self, x: T, after: u8)
        requires { length self.old + 21 ≤ N }
        ensures text { self.new ≡ self.old ++ (text_of (T.value x) ++ (after ∷ [])) }
        ensures room { length self.new ≤ length self.old + 21 }
    {
        append(&mut self.bytes, x, after);
    }

    // A row of numbers, separated by single spaces.
    pub fn row<T: Number>(&mut self, xs: &[T])
        requires { length self.old + 21 * length xs.now ≤ N }
        ensures text { self.new ≡ self.old ++ row_of (map T.value xs.now) }
        ensures room { length self.new ≤ length self.old + 21 * length xs.now }
    {
        for (i, x) in xs.iter().enumerate() {
            append(&mut self.bytes, *x, separator(xs.len() - 1 - i));
        }
    }

    // The row of a line that is no call.
    pub fn unknown(&mut self, line: u64)
        requires { length self.old + 23 ≤ N }
        ensures text { self.new ≡ self.old ++ unknown_of line }
        ensures room { length self.new ≤ length self.old + 23 }
    {
        self.bytes.try_extend_from_slice(b"? ").unwrap();
        self.put(line, b'\n');
    }

    fn digits(&mut self, bytes: &[u8])
        requires { length self.old + 2 * length bytes.now ≤ N }
        ensures text { self.new ≡ self.old ++ hex_digits bytes.now }
        ensures len { length self.new ≡ length self.old + 2 * length bytes.now }
    {
        for b in bytes {
            self.bytes.push(digit(b / 16));
            self.bytes.push(digit(b % 16));
        }
    }

    // Bytes in base sixteen, and the byte after them.
    pub fn put_bytes(&mut self, bytes: &[u8], after: u8)
        requires { length self.old + 2 * length bytes.now + 2 ≤ N }
        ensures text { self.new ≡ self.old ++ (hex_of bytes.now ++ (after ∷ [])) }
        ensures room { length self.new ≤ length self.old + 2 * length bytes.now + 2 }
    {
        if bytes.is_empty() {
            self.bytes.push(b'-');
        } else {
            self.digits(bytes);
        }
        self.bytes.push(after);
    }
}
