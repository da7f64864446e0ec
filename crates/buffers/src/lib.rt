// Byte buffers that a C caller lends: numbers are read from them, answers and tables are written to them. What a
// function requires is about lengths and a refusal's size; the exported functions show it of any buffers. The results
// 1 and 2 of `reply` are numbers, as the C interface has them.
#![tactic(auto)]

ghost use Rattle.std.specs.Prelude.{◌≡◌, map, ◌*◌, ◌/◌, ◌≤◌, min, pos, length, get_or};
ghost use Rattle.daybook.specs.Notices.{highest_refusal};
ghost use Rattle.layout.specs.Layout.{table_length};
ghost use Rattle.buffers.specs.Buffers.{numbers_in, with_numbers, table_in, replied, written, image_in};

// The bytes of a register.
const REGISTER_BYTES: usize = 61504;

// The first n numbers of the bytes, in t.
pub fn numbers_in<'a, 'b>(bytes: &'a [u8], t: &'b mut [i64], n: usize) -> &'b mut [i64]
    requires { (8 * n ≤ length bytes.now) × (n ≤ length t.old) }
    ensures { (result.now ≡ numbers_in bytes.now n) × (length result.now ≡ n) }
{
    words::decode(bytes, 0, t, 0, n);
    &mut t[..n]
}

// A register's table, in t. Where its bytes are too few, t is filled with numbers that nobody reads: the table is then
// written whole in both cases, and the back end leaves out the clearing of the array that it stands in.
pub fn table_in<'a, 'b>(register: &'a [u8], t: &'b mut [i64]) -> &'b mut [i64]
    requires { length t.old ≡ table_length }
    ensures { (result.now ≡ table_in register.now) × (8 * length result.now ≤ length register.now) }
{
    if register.len() < REGISTER_BYTES {
        t.fill(-1);
        return numbers_in(register, t, 0);
    }
    numbers_in(register, t, places::TABLE_LENGTH)
}

// The numbers of a list, in t; of more than t has room for the first ones.
pub fn list_in<'a, 'b>(list: &'a [u8], t: &'b mut [i64]) -> &'b mut [i64]
    ensures { result.now ≡ numbers_in list.now (min (length t.old) (length list.now / 8)) }
{
    let n = t.len().min(list.len() / 8);
    numbers_in(list, t, n)
}

// Room for the numbers of an answer table, at most as many as t has.
pub fn room_in<'a, 'b>(table: &'a [u8], t: &'b mut [i64]) -> &'b mut [i64]
    ensures { (length result.now ≡ min (length t.old) (length table.now / 8)) × (8 * length result.now ≤ length table.now) }
{
    let n = t.len().min(table.len() / 8);
    &mut t[..n]
}

// How many bytes of an image are lent on, by a call that answers with no field: all, or none where its answer's buffer
// is too short.
#[tactic(auto, unfolding(crate::specs::Buffers::image_in))]
pub fn image_room(image: &[u8], answer: &[u8]) -> usize
    ensures { (result ≡ length (image_in image.now answer.now)) × (result ≤ length image.now) }
{
    if answer.len() < 8 { 0 } else { image.len() }
}

// Writes numbers, given as their bits, from the first byte on.
#[tactic(auto, using(crate::proofs::Bytes::one_more), unfolding(words::specs::Tables::encoded_into, crate::specs::Buffers::with_numbers))]
fn put_numbers(b: &mut [u8], numbers: &[u64])
    requires { 8 * length numbers.now ≤ length b.old }
    ensures { b.new ≡ with_numbers (map pos numbers.now) b.old }
{
    for (k, number) in numbers.iter().enumerate() {
        words::put_number::<8>(b, 8 * k, *number);
    }
}

// Writes an answer's numbers, unless their buffer is too short; the result is their refusal.
pub fn reply(answer: &mut [u8], numbers: &[u64]) -> u64
    requires { (1 ≤ length numbers.now) × (length numbers.now ≤ 18) × (get_or numbers.now 0 0 ≤ highest_refusal) }
    ensures { ((pos result, answer.new) ≡ replied (map pos numbers.now) answer.old) × (result ≤ highest_refusal) }
{
    let refusal = numbers[0];
    if answer.len() < 8 * numbers.len() {
        return if refusal == 1 { 1 } else { 2 };
    }
    put_numbers(answer, numbers);
    refusal
}

// The end of a call: its answer, and where the result is 0 its numbers for the lent buffer.
pub fn finish(buffer: &mut [u8], answer: &mut [u8], t: &[i64], numbers: &[u64]) -> i64
    requires { (8 * length t.now ≤ length buffer.old) × (1 ≤ length numbers.now) × (length numbers.now ≤ 18) × (get_or numbers.now 0 0 ≤ highest_refusal) }
    ensures { (result, (buffer.new, answer.new)) ≡ written (map pos numbers.now, t.now) buffer.old answer.old }
{
    let refusal = reply(answer, numbers);
    let result = numbers::integer(refusal);
    if refusal == 0 {
        words::encode(t, 0, buffer, 0, t.len());
    }
    result
}
