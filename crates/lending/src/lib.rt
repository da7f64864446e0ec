// The buffers that a line of a journal lends to a call, and what is printed of them.
#![tactic(auto)]

ghost use Rattle.std.specs.Prelude.{◌++◌, ◌≡◌, ◌+◌, ◌*◌, ◌≤◌, length, take, replicate};
ghost use Rattle.buffers.specs.Buffers.{numbers_held, with_numbers};
ghost use Rattle.printing.specs.Rows.{row_bytes, row_of};
ghost use Rattle.lending.specs.Lending.{answer_bytes, table_bytes};

use printing::Output;

// Numbers as bytes, the first of b.
pub fn bytes_of<'a, 'b>(xs: &'a [i64], b: &'b mut [u8]) -> &'b mut [u8]
    requires { 8 * length xs.now ≤ length b.old }
    ensures { (result.now ≡ with_numbers xs.now (take (8 * length xs.now) b.old)) × (length result.now ≡ 8 * length xs.now) }
{
    let n = 8 * xs.len();
    let r = &mut b[..n];
    words::encode(xs, 0, r, 0, xs.len());
    r
}

// The first bytes of b as n numbers x.
#[tactic(auto, using(crate::proofs::Bytes::one_more), unfolding(words::specs::Tables::encoded_into, buffers::specs::Buffers::with_numbers))]
pub fn filled<'b>(n: usize, x: i64, b: &'b mut [u8]) -> &'b mut [u8]
    requires { 8 * n ≤ length b.old }
    ensures { (result.now ≡ with_numbers (replicate n x) (take (8 * n) b.old)) × (length result.now ≡ 8 * n) }
{
    let end = 8 * n;
    let r = &mut b[..end];
    for k in 0..n {
        words::put_word(r, 8 * k, x);
    }
    r
}

// The row of an answer and a table, 18 and 512 numbers at most.
pub fn print_row<const N: usize>(out: &mut Output<N>, answer: &[u8], table: &[u8])
    requires { (length answer.now ≤ answer_bytes) × (length table.now ≤ table_bytes) × (length out.old + row_bytes ≤ N) }
    ensures text { out.new ≡ out.old ++ row_of (numbers_held answer.now ++ numbers_held table.now) }
    ensures room { length out.new ≤ length out.old + row_bytes }
{
    let n = answer.len() / 8;
    let m = table.len() / 8;
    let end = n + m;
    let mut numbers = [0i64; 530];
    words::decode(answer, 0, &mut numbers, 0, n);
    words::decode(table, 0, &mut numbers, n, m);
    out.row(&numbers[..end]);
}
