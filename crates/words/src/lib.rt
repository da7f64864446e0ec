// Little-endian numbers of at most 8 bytes, and check sums of words; a signed word is two's complement.
// A `requires` is about lengths, which callers (the hub's functions) test first, and the size of a number.
#![tactic(auto)]

ghost use Rattle.std.specs.Prelude.{◌≡◌, ◌+◌, ◌*◌, ◌%◌, ◌^◌, ◌<◌, ◌≤◌, length};
ghost use Rattle.std.specs.Iterator.{IsFinite};
ghost use Rattle.std.specs.Iterator.Runs.{WholeRun};
ghost use Rattle.words.specs.Words.{number_at, word_at, with_number, with_word, bits_of};
ghost use Rattle.words.specs.Tables.{decoded_into, encoded_into};
ghost use Rattle.words.specs.Sums.{sums_of, with_more};

// The number of the N bytes from at on.
pub fn number<const N: usize>(b: &[u8], at: usize) -> u64
    requires { (N ≤ 8) × (at + N ≤ length b.now) }
    ensures { (result ≡ number_at b.now at N) × (result < 256 ^ N) }
{
    // Byte by byte: after copy_from_slice the back end keeps a test of overlap for each word of a table.
    let mut bytes = [0; 8];
    for (i, byte) in b[at..at + N].iter().enumerate() {
        bytes[i] = *byte;
    }
    u64::from_le_bytes(bytes)
}

// The signed number of the eight bytes from at on.
#[tactic(auto, unfolding(crate::specs::Words::word_at))]
pub fn word(b: &[u8], at: usize) -> i64
    requires { at + 8 ≤ length b.now }
    ensures { result ≡ word_at b.now at }
{
    number::<8>(b, at).cast_signed()
}

// Writes the N lowest bytes of n from at on.
pub fn put_number<const N: usize>(b: &mut [u8], at: usize, n: u64)
    requires { (N ≤ 8) × (at + N ≤ length b.old) }
    ensures { b.new ≡ with_number b.old at N n }
{
    let bytes = n.to_le_bytes();
    b[at..at + N].copy_from_slice(&bytes[..N]);
}

// Writes the eight bytes of x from at on.
#[tactic(auto, unfolding(crate::specs::Words::with_word))]
pub fn put_word(b: &mut [u8], at: usize, x: i64)
    requires { at + 8 ≤ length b.old }
    ensures { b.new ≡ with_word b.old at x }
{
    put_number::<8>(b, at, x.cast_unsigned());
}

// The n words of b from byte at on into the places of t from to on. A `for`, and one in encode: of a chain that writes
// what it captures nothing is said.
#[tactic(auto, using(crate::proofs::Tables::decoded_more), unfolding(crate::specs::Tables::decoded_into))]
pub fn decode(b: &[u8], at: usize, t: &mut [i64], to: usize, n: usize)
    requires { (at + 8 * n ≤ length b.now) × (to + n ≤ length t.old) }
    ensures { t.new ≡ decoded_into t.old to b.now at n }
{
    for i in 0..n {
        t[to + i] = word(b, at + 8 * i);
    }
}

// The n numbers of t from place from on into the words of b from byte at on.
#[tactic(auto, using(crate::proofs::Tables::encoded_more), unfolding(crate::specs::Tables::encoded_into))]
pub fn encode(t: &[i64], from: usize, b: &mut [u8], at: usize, n: usize)
    requires { (at + 8 * n ≤ length b.old) × (from + n ≤ length t.now) }
    ensures { b.new ≡ encoded_into b.old at t.now from n }
{
    for k in 0..n {
        put_word(b, at + 8 * k, t[from + k]);
    }
}

// The sum of a run of words and the sum of those running sums, both modulo 2^64.
#[derive(Clone, Copy)]
pub struct Checksum {
    pub s1: u64,
    pub s2: u64,
}

impl Checksum {
    // With one word more.
    fn with(self, word: u64) -> Checksum
        ensures { result ≡ with_more self word }
    {
        let s1 = self.s1.wrapping_add(word);
        Checksum {
            s1,
            s2: self.s2.wrapping_add(s1),
        }
    }

    // The sums of an iterator's words.
    pub fn of<I: Iterator<Item = u64>>(words: I) -> Checksum
        requires can { I.can_next words }
        requires ends { IsFinite (I.remaining words) }
        ensures { WholeRun I.next_gives words (λ p. (result.s1 ≡ (sums_of p.items).0) × (result.s2 ≡ (sums_of p.items).1)) }
    {
        words.fold(Checksum { s1: 0, s2: 0 }, |sums, word| sums.with(word))
    }
}

// The sums of a table's words. This and the next say what is summed, a line each.
pub fn sums(t: &[i64]) -> Checksum
    ensures { (result.s1 ≡ (sums_of (bits_of t.now)).0) × (result.s2 ≡ (sums_of (bits_of t.now)).1) }
{
    Checksum::of(t.iter().map(|x| x.cast_unsigned()))
}

// The sums of bytes, each a word.
pub fn byte_sums(b: &[u8]) -> Checksum
    ensures { (result.s1 ≡ (sums_of b.now).0) × (result.s2 ≡ (sums_of b.now).1) }
{
    Checksum::of(b.iter().map(|x| u64::from(*x)))
}
