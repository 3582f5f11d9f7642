// Numbers in a text: 16 hexadecimal digits, three such to a line, and decimal numbers.
ghost use Rattle.std.specs.Prelude.{◌≡◌, ◌+◌, ◌<◌, length, MatchOption};
ghost use Rattle.vectors.specs.Inner.{IsPart};
ghost use Rattle.vectors.specs.Text.{hex_at, row_at};

use crate::digits::hex_digit;

// So many bytes from a place on, if the text has them.
fn part_at(s: &[u8], at: usize, count: usize) -> Option<&[u8]>
    ensures { MatchOption result (length s.now < at + count)
        (λ part. IsPart s.now at count part.now) }
{
    s.get(at..)?.get(..count)
}

// The number that 16 hexadecimal digits make.
pub fn hex16(s: &[u8], at: usize) -> Option<u64>
    ensures { result ≡ hex_at s.now at }
{
    let digits = part_at(s, at, 16)?;
    let mut n: u64 = 0;
    for b in digits {
        n = n * 16 + u64::from(hex_digit(*b as u64)?);
    }
    Some(n)
}

// The three numbers that end a line, from the first one's place on.
pub fn three_numbers(s: &[u8], at: usize) -> Option<(u64, u64, u64)>
    ensures { result ≡ row_at s.now at }
{
    let row = part_at(s, at, 51)?;
    if row[16] != b' ' || row[33] != b' ' || row[50] != b'\n' {
        return None;
    }
    Some((hex16(s, at)?, hex16(s, at + 17)?, hex16(s, at + 34)?))
}

// The number that the bytes of a whole slice make: decimal digits without leading zeros.
pub fn decimal_number(s: &[u8]) -> Option<u32> {
    match s {
        [] | [b'0', _, ..] => None,
        _ => s.iter().try_fold(0u32, |n, b| more_decimal(n, *b)),
    }
}

// The decimal number with one digit more.
fn more_decimal(n: u32, b: u8) -> Option<u32> {
    if !b.is_ascii_digit() {
        return None;
    }
    n.checked_mul(10)?.checked_add(u32::from(b - b'0'))
}
