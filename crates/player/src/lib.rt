// Plays a journal: reads calls from its input, one a line, on one register, and writes a row of numbers for each.
#![tactic(auto)]

ghost use Rattle.std.specs.Prelude.{◌≡◌, ◌+◌, ◌≤◌, false, length, IfSome};
ghost use Rattle.printing.specs.Rows.{row_bytes};
ghost use Rattle.lines.specs.Lines.{buffer_numbers, buffer_bytes, line_numbers, most_room};

use arrayvec::ArrayVec;
use journal::Command;
use printing::Output;
use std::io::{Print, Read, Stdin, Stdout};

// The buffer of a line.
const LINE_BYTES: usize = 8192;

// What is read at once.
const CHUNK_BYTES: usize = 65536;

// What is printed and waits at most.
const OUTPUT_BYTES: usize = 32768;

// What is printed, where it is written, and whether each write succeeded.
#[derive(Drop)]
struct Screen {
    output: Output<OUTPUT_BYTES>,
    stdout: Stdout,
    open: bool,
}

impl Screen {
    // Writes what waits.
    fn flush(&mut self)
        ensures { length self.new.output ≡ 0 }
    {
        self.open &= self.stdout.write_all(self.output.as_bytes()).is_ok();
        self.output.clear();
    }

    // Room for one more row.
    fn make_room(&mut self)
        ensures { length self.new.output + row_bytes ≤ OUTPUT_BYTES }
    {
        if OUTPUT_BYTES - printing::ROW_BYTES < self.output.len() {
            self.flush();
        }
    }
}

// The number of a line that has one alone, if it is from 0 to `most`.
fn only_number(nums: &[i64], most: usize) -> Option<usize>
    ensures { IfSome result (λ n. n ≤ most) }
{
    let [n] = nums else {
        return None;
    };
    usize::try_from(*n).ok().filter(|n| *n <= most)
}

// The register's buffer and the images', the numbers of the buffer that calls are lent, and those of an answer table.
#[derive(Drop)]
struct Register {
    bytes: [u8; lines::BUFFER_BYTES],
    images: [u8; imagelines::IMAGES_BYTES],
    lent: usize,
    room: usize,
    ghost lent_within: { lent ≤ buffer_numbers },
    ghost room_within: { room ≤ most_room },
}

impl Register {
    // The call tlen. It answers, as those below, whether it is a call: then it prints a row, else nothing.
    fn lend<const N: usize>(&mut self, nums: &[i64], out: &mut Output<N>) -> bool
        requires { length out.old + row_bytes ≤ N }
        ensures row { length out.new ≤ length out.old + row_bytes }
        ensures nothing { result ≡ false → out.new ≡ out.old }
    {
        let Some(lent) = only_number(nums, lines::BUFFER_NUMBERS) else {
            return false;
        };
        self.lent = lent;
        out.row(&[0u64]);
        true
    }

    // The call alen.
    fn set_room<const N: usize>(&mut self, nums: &[i64], out: &mut Output<N>) -> bool
        requires { length out.old + row_bytes ≤ N }
        ensures row { length out.new ≤ length out.old + row_bytes }
        ensures nothing { result ≡ false → out.new ≡ out.old }
    {
        let Some(room) = only_number(nums, lines::MOST_ROOM) else {
            return false;
        };
        self.room = room;
        out.row(&[0u64]);
        true
    }

    // Any line but those on bytes, with its numbers.
    fn obey<const N: usize>(&mut self, command: Command, nums: &[i64], out: &mut Output<N>) -> bool
        requires { (length nums.now ≤ line_numbers) × (length out.old + row_bytes ≤ N) }
        ensures row { length out.new ≤ length out.old + row_bytes }
        ensures nothing { result ≡ false → out.new ≡ out.old }
    {
        match command {
            Command::Lend => self.lend(nums, out),
            Command::Room => self.set_room(nums, out),
            Command::Image(word) => {
                imagelines::answer(
                    word,
                    &mut self.bytes,
                    self.lent,
                    &mut self.images,
                    nums,
                    out,
                )
            }
            Command::Trial => triallines::answer(&self.bytes, self.lent, nums, out),
            _ => lines::answer(command, &mut self.bytes, self.lent, self.room, nums, out),
        }
    }
}

// The first word from at on, and the place after it.
fn first_word(line: &[u8], at: usize) -> (&[u8], usize)
    requires { at ≤ length line.now }
    ensures { result.1 ≤ length line.now }
{
    let start = journal::skip(line, at);
    let end = journal::word_end(line, start);
    (&line[start..end], end)
}

// The bytes of the present line, whether it has more than they hold, its numbers, and how many lines have ended.
#[derive(Drop)]
struct Player {
    register: Register,
    screen: Screen,
    line: ArrayVec<u8, LINE_BYTES>,
    too_long: bool,
    nums: [i64; lines::LINE_NUMBERS],
    ended: u64,
}

impl Player {
    // A call on bytes. The first word from at on names it.
    fn on_bytes(&mut self, at: usize) -> bool
        requires { (at ≤ length self.old.line.items) × (length self.old.screen.output + row_bytes ≤ OUTPUT_BYTES) }
        ensures row { length self.new.screen.output ≤ length self.old.screen.output + row_bytes }
        ensures nothing { result ≡ false → self.new.screen.output ≡ self.old.screen.output }
    {
        let line = self.line.as_slice();
        let (word, end) = first_word(line, at);
        let Command::Call(call) = journal::named_on_bytes(word) else {
            return false;
        };
        let Some(n) = journal::take_numbers(line, end, &mut self.nums) else {
            return false;
        };
        lines::on_bytes(
            call,
            &mut self.register.bytes,
            &self.nums[..n],
            &mut self.screen.output,
        )
    }

    // Whether the line is a call, or none is to be made of it.
    fn play(&mut self) -> bool
        requires { length self.old.screen.output + row_bytes ≤ OUTPUT_BYTES }
        ensures row { length self.new.screen.output ≤ length self.old.screen.output + row_bytes }
        ensures nothing { result ≡ false → self.new.screen.output ≡ self.old.screen.output }
    {
        let line = self.line.as_slice();
        let (word, end) = first_word(line, 0);
        if word.is_empty() || line.starts_with(b"#") {
            return true;
        }
        let command = journal::named(word);
        if let Command::Hub = command {
            return self.on_bytes(end);
        }
        let Some(n) = journal::take_numbers(line, end, &mut self.nums) else {
            return false;
        };
        self.register
            .obey(command, &self.nums[..n], &mut self.screen.output)
    }

    // What a line prints, one row at most: that of a call, or of a line that is none.
    fn answer(&mut self, number: u64)
        requires { length self.old.screen.output + row_bytes ≤ OUTPUT_BYTES }
        ensures { length self.new.screen.output ≤ length self.old.screen.output + row_bytes }
    {
        if self.too_long || !self.play() {
            self.screen.output.unknown(number);
        }
    }

    // The line has ended.
    fn end_line(&mut self) {
        let number = self.ended.wrapping_add(1);
        self.screen.make_room();
        self.answer(number);
        self.ended = number;
        self.line.clear();
        self.too_long = false;
    }

    // One more byte. Of a line that is too long the rest is dropped.
    fn take(&mut self, b: u8) {
        if b == b'\n' {
            self.end_line();
        } else if self.line.try_push(b).is_err() {
            self.too_long = true;
        }
    }

    // Reads once, plays the lines that end, and writes their rows: who types a line sees its row. It answers whether
    // input may follow.
    fn turn(&mut self, input: &mut Stdin) -> bool {
        let mut chunk = [0u8; CHUNK_BYTES];
        let n = input.read(&mut chunk).unwrap_or(0);
        if n == 0 {
            return false;
        }
        for b in &chunk[..n] {
            self.take(*b);
        }
        self.screen.flush();
        self.screen.open
    }
}

// The sixteen numbers past the register.
fn mark(register: &mut [u8])
    requires { length register.old ≡ buffer_bytes }
{
    for i in 0..16 {
        words::put_number::<8>(register, 8 * (places::TABLE_LENGTH + i), 1000 + i as u64);
    }
}

pub fn run(rt: HostRuntime) {
    let mut player = Player {
        register: Register {
            bytes: [0; lines::BUFFER_BYTES],
            images: [0; imagelines::IMAGES_BYTES],
            lent: places::TABLE_LENGTH,
            room: 32,
        },
        screen: Screen {
            output: Output::new(),
            stdout: rt.stdout(),
            open: true,
        },
        line: ArrayVec::new(),
        too_long: false,
        nums: [0; lines::LINE_NUMBERS],
        ended: 0,
    };
    mark(&mut player.register.bytes);
    let mut input = rt.stdin();
    for _ in 0..u64::MAX {
        if !player.turn(&mut input) {
            break;
        }
    }
    if !player.line.is_empty() {
        player.end_line();
        player.screen.flush();
    }
}
