// The lines of a journal on images: save and restore, one byte set, and the sums of a buffer. Each takes its numbers,
// works on the bytes of the register's buffer and of the images', and prints its text. It answers whether it is a call;
// one that is none leaves the buffers and prints nothing.
#![tactic(auto)]

ghost use Rattle.std.specs.Prelude.{true, ◌++◌, ◌≡◌, ◌+◌, ◌≤◌, length};
ghost use Rattle.printing.specs.Rows.{row_bytes};
ghost use Rattle.lines.specs.Lines.{buffer_numbers, buffer_bytes, size, Played};
ghost use Rattle.imagelines.specs.ImageLines.{images_bytes, image_at, lends_image, pokeable as ImageLines·pokeable, summable as ImageLines·summable, answered, save_line, restore_line, imgpoke_line, sums_line, image_line, ImagePlayed};

use journal::ImageWord;
use printing::Output;
use std::ops::Range;

// The buffer of an image, which has sixteen bytes more than the image. Five of them stand one after the other.
const IMAGE_BYTES: usize = 63504;

const IMAGES: u64 = 5;

pub const IMAGES_BYTES: usize = 317520;

// Whether a save or a restore has its numbers: a state number, a buffer, and how many bytes of it are lent.
fn lendable(nums: &[i64]) -> bool
    ensures { result ≡ lends_image nums.now }
{
    let image = forms::natural(nums, 1) < IMAGES;
    let bytes = forms::natural(nums, 2) <= IMAGE_BYTES as u64;
    (nums.len() == 3) & (image & bytes)
}

// The bytes that are lent.
fn lent_part(nums: &[i64]) -> Range<usize>
    requires { lends_image nums.now ≡ true }
    ensures { (result.start ≡ image_at (size nums.now 1)) × (result.end ≡ result.start + size nums.now 2) × (result.end ≤ images_bytes) }
{
    let start = IMAGE_BYTES * forms::natural(nums, 1) as usize;
    let bytes = forms::natural(nums, 2) as usize;
    let end = start + bytes;
    start..end
}

// The row of an answer without a field.
fn print_answer<const N: usize>(out: &mut Output<N>, answer: &[u8])
    requires { (8 ≤ length answer.now) × (length out.old + row_bytes ≤ N) }
    ensures text { out.new ≡ out.old ++ answered answer.now }
    ensures room { length out.new ≤ length out.old + row_bytes }
{
    out.row(&[words::word(answer, 0)]);
}

// Saves the register's lent bytes.
fn save<const N: usize>(
    register: &[u8],
    images: &mut [u8],
    nums: &[i64],
    out: &mut Output<N>,
) -> bool
    requires { (length images.old ≡ images_bytes) × (length out.old + row_bytes ≤ N) }
    ensures { Played (save_line register.now images.old nums.now) images.old out.old images.new out.new result }
{
    if !lendable(nums) {
        return false;
    }
    let part = lent_part(nums);
    let mut answer = [0u8; 8];
    hub::petlumas_save(
        register,
        &mut answer,
        &mut images[part.start..part.end],
        nums[0],
    );
    print_answer(out, &answer);
    true
}

// Restores them.
fn restore<const N: usize>(
    register: &mut [u8],
    images: &[u8],
    nums: &[i64],
    out: &mut Output<N>,
) -> bool
    requires { (length images.now ≡ images_bytes) × (length out.old + row_bytes ≤ N) }
    ensures { Played (restore_line register.old images.now nums.now) register.old out.old register.new out.new result }
{
    if !lendable(nums) {
        return false;
    }
    let part = lent_part(nums);
    let mut answer = [0u8; 8];
    hub::petlumas_restore(
        register,
        &mut answer,
        &images[part.start..part.end],
        nums[0],
    );
    print_answer(out, &answer);
    true
}

// Whether a line has the numbers of a buffer, of one of its bytes, and a byte.
fn pokeable(nums: &[i64]) -> bool
    ensures { result ≡ ImageLines·pokeable nums.now }
{
    let image = forms::natural(nums, 0) < IMAGES;
    let place = forms::natural(nums, 1) < IMAGE_BYTES as u64;
    let byte = forms::natural(nums, 2) < 256;
    (nums.len() == 3) & (image & (place & byte))
}

// Sets one byte of a buffer.
fn poke<const N: usize>(images: &mut [u8], nums: &[i64], out: &mut Output<N>) -> bool
    requires { (length images.old ≡ images_bytes) × (length out.old + row_bytes ≤ N) }
    ensures { Played (imgpoke_line images.old nums.now) images.old out.old images.new out.new result }
{
    if !pokeable(nums) {
        return false;
    }
    let first = IMAGE_BYTES * forms::natural(nums, 0) as usize;
    let place = first + forms::natural(nums, 1) as usize;
    images[place] = forms::natural(nums, 2) as u8;
    out.row(&[0u64]);
    true
}

// Whether it has the number of a buffer.
fn summable(nums: &[i64]) -> bool
    ensures { result ≡ ImageLines·summable nums.now }
{
    let image = forms::natural(nums, 0) < IMAGES;
    (nums.len() == 1) & image
}

// The sums of all bytes of a buffer.
fn sums<const N: usize>(images: &[u8], nums: &[i64], out: &mut Output<N>) -> bool
    requires { (length images.now ≡ images_bytes) × (length out.old + row_bytes ≤ N) }
    ensures { Played (sums_line images.now nums.now) images.now out.old images.now out.new result }
{
    if !summable(nums) {
        return false;
    }
    let start = IMAGE_BYTES * forms::natural(nums, 0) as usize;
    let end = start + IMAGE_BYTES;
    let s = words::byte_sums(&images[start..end]);
    out.row(&[0, s.s1, s.s2]);
    true
}

// Any line on images. Save and restore are lent the first numbers of the register's buffer.
pub fn answer<const N: usize>(
    word: ImageWord,
    register: &mut [u8],
    lent: usize,
    images: &mut [u8],
    nums: &[i64],
    out: &mut Output<N>,
) -> bool
    requires { (length register.old ≡ buffer_bytes) × (lent ≤ buffer_numbers) × (length images.old ≡ images_bytes) × (length out.old + row_bytes ≤ N) }
    ensures { ImagePlayed (image_line word register.old lent images.old nums.now) register.old images.old out.old register.new images.new out.new result }
{
    let n = 8 * lent;
    match word {
        ImageWord::Save => save(&register[0..n], images, nums, out),
        ImageWord::Restore => restore(&mut register[0..n], images, nums, out),
        ImageWord::Poke => poke(images, nums, out),
        ImageWord::Sums => sums(images, nums, out),
    }
}
