// The numbers of a stored case, and those of its answer: at most 160 to a line, each 16 digits.
ghost use Rattle.std.specs.Prelude.{◌≡◌, ◌+◌, ◌*◌, ◌<◌, ◌≤◌, length, IfSome, OnSome};
ghost use Rattle.arrayvec.specs.ArrayVec.{array_vec_len};
ghost use Rattle.vectors.specs.Digest.{with_bytes};

use crate::digest::digest_with;
use crate::numbers::hex16;
use arrayvec::ArrayVec;
use std::io;

// The answer to a line that is no case: a number that no call gives.
pub const OFF: u64 = 0xffff_ffff_ffff_ffff;

// The most numbers of a line.
pub const MOST_NUMBERS: usize = 160;

// How many bytes a number takes, with its space.
const WIDTH: usize = 17;

// The most bytes of a line of numbers alone.
const LONGEST: usize = WIDTH * MOST_NUMBERS;

// How many numbers a short line has at most, and its bytes.
const FEW_NUMBERS: usize = 32;

const SHORT: usize = WIDTH * FEW_NUMBERS;

// The numbers after a line's word, each a space and its digits, up to the line's byte 10. None where
// the line is off its form.
// Kept: for a line by itself. The programs read many lines, each into the room of the one before.
pub fn read_numbers(rest: &[u8]) -> Option<ArrayVec<u64, MOST_NUMBERS>>
    ensures few { IfSome result (λ numbers. array_vec_len numbers ≤ 160) }
    ensures whole { IfSome result (λ numbers. length rest.now ≡ 17 * array_vec_len numbers + 1) }
{
    let mut numbers = ArrayVec::new();
    read_numbers_into(rest, &mut numbers)?;
    Some(numbers)
}

// The same into a room that is lent, over what it holds: where many lines are read, no line moves it.
pub fn read_numbers_into(rest: &[u8], numbers: &mut ArrayVec<u64, MOST_NUMBERS>) -> Option<()>
    ensures few { IfSome result (λ _. array_vec_len numbers.new ≤ 160) }
    ensures whole { IfSome result (λ _. length rest.now ≡ 17 * array_vec_len numbers.new + 1) }
{
    numbers.clear();
    let fields = rest.strip_suffix(b"\n")?;
    if fields.len() > WIDTH * MOST_NUMBERS {
        return None;
    }
    for field in fields.chunks(WIDTH) {
        numbers.push(field_number(field)?);
    }
    Some(())
}

// The number of a field, which has a space before its digits.
fn field_number(field: &[u8]) -> Option<u64>
    ensures { OnSome result (length field.now ≡ 17) }
{
    if field.len() != WIDTH || field[0] != b' ' {
        return None;
    }
    hex16(field, 1)
}

// The digits of a number.
const DIGITS: [u8; 16] = *b"0123456789abcdef";

// A number as a line has it: a space, and 16 digits.
fn spaced(n: u64) -> [u8; WIDTH] {
    let mut field = [b' '; WIDTH];
    let mut rest = n;
    for digit in field[1..].iter_mut().rev() {
        *digit = DIGITS[(rest % 16) as usize];
        rest /= 16;
    }
    field
}

// Where the text of a line's number begins in its field: the first one has no space.
fn text_start(place: usize) -> usize
    ensures { result ≤ 1 }
{
    if place == 0 { 1 } else { 0 }
}

// Writes a line of numbers, with single spaces between, from an empty room that is lent: by one call, or where
// the line is longer each time that the room is full.
fn write_line<const N: usize>(
    rt: &impl Print,
    numbers: &[u64],
    line: &mut ArrayVec<u8, N>,
) -> io::Result<()>
    requires { 0 < N }
{
    for (place, n) in numbers.iter().enumerate() {
        if line.remaining_capacity() < WIDTH {
            rt.write_all(line)?;
            line.clear();
        }
        let _ = line.try_extend_from_slice(&spaced(*n)[text_start(place)..]);
    }
    if line.is_full() {
        rt.write_all(line)?;
        line.clear();
    }
    line.push(b'\n');
    rt.write_all(line)
}

// Writes a line to standard output: the numbers of an answer. A line of a case's numbers is written by one
// call. A short line has a room of its own, since clearing the longest takes more than its digits.
pub fn write_numbers(rt: &impl Print, numbers: &[u64]) -> io::Result<()> {
    if numbers.len() <= FEW_NUMBERS {
        let mut line: ArrayVec<u8, SHORT> = ArrayVec::new();
        write_line(rt, numbers, &mut line)
    } else {
        let mut line: ArrayVec<u8, LONGEST> = ArrayVec::new();
        write_line(rt, numbers, &mut line)
    }
}

// The digest of what was written.
#[derive(Clone, Copy, Debug, PartialEq, Eq)]
struct Digest(u64);

impl Digest {
    // More bytes.
    fn put(&mut self, bytes: &[u8])
        ensures { self.new.0 ≡ with_bytes self.old.0 bytes.now }
    {
        self.0 = digest_with(self.0, bytes);
    }
}

// The digest of a text whose digest so far is known, and of the line that `write_numbers` would write.
pub fn digest_numbers(digest: u64, numbers: &[u64]) -> u64 {
    let mut sum = Digest(digest);
    for (place, n) in numbers.iter().enumerate() {
        sum.put(&spaced(*n)[text_start(place)..]);
    }
    sum.put(b"\n");
    sum.0
}
