// Named states: a register saved into the lent bytes of an image, and restored from them. An image is 124 blocks of 512
// bytes: 62 numbers of the register, the state number, the block number, and a check of all these.
#![tactic(auto)]

ghost use Rattle.std.specs.Prelude.{◌≡◌, ◌+◌, ◌*◌, ◌<◌, ◌≤◌, not, ◌&&◌, [], ◌∷◌, ◌++◌, length, drop, nat_le};
ghost use Rattle.numbers.specs.Naturals.{nat_of};
ghost use Rattle.refusals.specs.Refusals.{row_of};
ghost use Rattle.daybook.specs.Calls.{notice_numbers};
ghost use Rattle.daybook.specs.States.{is_state, image_length, state_row, first_row};
ghost use Rattle.daybook.specs.Editions.{editions};
ghost use Rattle.layout.specs.Layout.{table_length};
ghost use Rattle.images.specs.Blocks.{block_count, check_of, with_block, with_image, intact_at, intact as Blocks·intact, of_state, image_numbers};
ghost use Rattle.images.specs.Images.{save_call, restore_call};

use refusals::Refusal;
use table::Register;

const IMAGE_BYTES: usize = 63488;

const BLOCKS: usize = 124;

const BLOCK_BYTES: usize = 512;

const BLOCK_NUMBERS: usize = 62;

// The words of a block that its check is over.
const CHECKED_WORDS: usize = 63;

// Where the state number, the block number and the check stand in a block.
const STATE: usize = 496;

const NUMBER: usize = 500;

const CHECK: usize = 504;

// The check of block k.
fn check(image: &[u8], k: usize) -> u64
    requires { (k < block_count) × (image_length ≤ length image.now) }
    ensures { result ≡ check_of image.now k }
{
    let at = BLOCK_BYTES * k;
    let checked = (0..CHECKED_WORDS).map(|i| words::number::<8>(image, at + 8 * i));
    words::Checksum::of(checked).s2
}

fn put_block(t: &[i64], state: u64, image: &mut [u8], k: usize)
    requires { (k < block_count) × (table_length ≤ length t.now) × (image_length ≤ length image.old) }
    ensures { image.new ≡ with_block state t.now image.old k }
{
    let at = BLOCK_BYTES * k;
    words::encode(t, BLOCK_NUMBERS * k, image, at, BLOCK_NUMBERS);
    words::put_number::<4>(image, at + STATE, state);
    words::put_number::<4>(image, at + NUMBER, k as u64);
    let sum = check(image, k);
    words::put_number::<8>(image, at + CHECK, sum);
}

#[tactic(auto, using(crate::proofs::Blocks::blocks_more), unfolding(crate::specs::Blocks::with_blocks, crate::specs::Blocks::with_image))]
fn put_blocks(t: &[i64], state: u64, image: &mut [u8])
    requires { (table_length ≤ length t.now) × (image_length ≤ length image.old) }
    ensures { image.new ≡ with_image state t.now image.old }
{
    for k in 0..BLOCKS {
        put_block(t, state, image, k);
    }
}

// Row 2: a state number, and enough bytes of its image. One test, whose one refusal stands where it is asked.
fn in_range(state: i64, image: &[u8]) -> bool
    ensures { result ≡ (is_state state && nat_le image_length (length image.now)) }
{
    daybook::is_state(state) & (IMAGE_BYTES <= image.len())
}

// Saves the register into the image of a state number.
pub fn save(t: &[i64], state: i64, image: &mut [u8]) -> Result<(), Refusal>
    ensures { (notice_numbers result ≡ (save_call editions t.now state image.old).0) × (image.new ≡ (save_call editions t.now state image.old).1) }
{
    let register = Register::of(t)?;
    if !in_range(state, image) {
        return Err(Refusal::OutOfRange);
    }
    put_blocks(register.table, numbers::natural(state), image);
    Ok(())
}

// Are the check and the block number of block k right?
fn block_intact(image: &[u8], k: usize) -> bool
    requires { (k < block_count) × (image_length ≤ length image.now) }
    ensures { result ≡ intact_at image.now k }
{
    let at = BLOCK_BYTES * k;
    let right = words::number::<8>(image, at + CHECK) == check(image, k);
    right & (words::number::<4>(image, at + NUMBER) == k as u64)
}

fn intact(image: &[u8]) -> bool
    requires { image_length ≤ length image.now }
    ensures { result ≡ Blocks·intact image.now }
{
    (0..BLOCKS).all(|k| block_intact(image, k))
}

// Is every block of this state number?
fn of_state(image: &[u8], state: u64) -> bool
    requires { image_length ≤ length image.now }
    ensures { result ≡ of_state state image.now }
{
    (0..BLOCKS).all(|k| words::number::<4>(image, BLOCK_BYTES * k + STATE) == state)
}

// What sends an image back, before the register that it holds is looked at.
fn image_row(state: i64, image: &[u8]) -> Result<(), Refusal>
    ensures { row_of result ≡ first_row (state_row state (length image.now) ∷ (17, not (Blocks·intact image.now)) ∷ (18, not (of_state (nat_of state) image.now)) ∷ []) }
{
    if !in_range(state, image) {
        return Err(Refusal::OutOfRange);
    }
    let whole = intact(image);
    let named = of_state(image, numbers::natural(state));
    if !whole {
        return Err(Refusal::BrokenBlock);
    }
    if !named {
        return Err(Refusal::OtherState);
    }
    Ok(())
}

// The numbers that the blocks hold, in the first places of t.
#[tactic(auto, using(crate::proofs::Saved::blocks_taken), unfolding(crate::specs::Blocks::blocks_into))]
fn take_blocks(image: &[u8], t: &mut [i64])
    requires { (image_length ≤ length image.now) × (table_length ≤ length t.old) }
    ensures { t.new ≡ image_numbers image.now ++ drop table_length t.old }
{
    for k in 0..BLOCKS {
        words::decode(image, BLOCK_BYTES * k, t, BLOCK_NUMBERS * k, BLOCK_NUMBERS);
    }
}

// The register of an image, in a table that may be unsound. The table is written only where the register is known to be
// sound.
pub fn restore(t: &mut [i64], state: i64, image: &[u8]) -> Result<(), Refusal>
    ensures { (notice_numbers result ≡ (restore_call editions t.old state image.now).0) × (t.new ≡ (restore_call editions t.old state image.now).1) }
{
    if t.len() < places::TABLE_LENGTH {
        return Err(Refusal::Unsound);
    }
    image_row(state, image)?;
    let mut held = [0i64; places::TABLE_LENGTH];
    take_blocks(image, &mut held);
    let register = Register::of(&held)?;
    rows::copy_first(t, register.table, places::TABLE_LENGTH);
    Ok(())
}
