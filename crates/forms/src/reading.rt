// What a text has at its front: a number, a piece of a line, a whole line.
ghost use Rattle.std.specs.Prelude.{◌≡◌, ◌-◌, ◌<◌, ◌≤◌, ◌^◌, map, drop, replicate, IfSome};
ghost use Rattle.forms.specs.Answers.{front_in, line_in};
ghost use Rattle.forms.specs.Forms.{byte, piece_of, fields, read_piece, read_form};
ghost use Rattle.forms.specs.Fronts.{hex_front, decimal_after, decimal_front};

use crate::Piece;
use crate::digits::{decimal_digit, digit_of};

// A number at the front of a text, and the text after it.
#[derive(Clone, Copy, Debug, PartialEq, Eq)]
struct Front<'a> {
    value: u64,
    rest: &'a [u8],
}

// A line's numbers, with 0 after them, and the text after the line.
#[derive(Clone, Copy, Debug, PartialEq, Eq)]
pub struct Line<'a, const N: usize> {
    pub numbers: [u64; N],
    pub rest: &'a [u8],
}

// 16 hexadecimal digits.
fn read_hex(text: &[u8]) -> Option<Front<'_>>
    ensures { front_in result ≡ hex_front text.now }
{
    let (digits, rest) = text.split_at_checked(16)?;
    let mut value = 0;
    for b in digits {
        value = value * 16 + u64::from(digit_of(*b)?);
    }
    Some(Front { value, rest })
}

// The decimal digits at the front, after those that make `first`. A product or a sum that does not fit
// is above any limit. Kept: what follows the digits is part of the answer, and a `for` over the bytes
// would have to count its way back to it.
fn digits_after(text: &[u8], first: u64, limit: u64) -> Option<Front<'_>>
    requires { first ≤ limit }
    ensures { front_in result ≡ decimal_after limit first text.now }
{
    let mut value = first;
    let mut rest = text;
    while let Some((b, after)) = rest.split_first() {
        let Some(d) = decimal_digit(*b) else {
            break;
        };
        let more = value.checked_mul(10)?.checked_add(u64::from(d))?;
        if more > limit {
            return None;
        }
        value = more;
        rest = after;
    }
    Some(Front { value, rest })
}

// A decimal number without leading zeros, not above a limit.
fn read_decimal(text: &[u8], limit: u64) -> Option<Front<'_>>
    ensures { front_in result ≡ decimal_front limit text.now }
{
    let (b, rest) = text.split_first()?;
    if *b == b'0' {
        return Some(Front { value: 0, rest });
    }
    let d = u64::from(decimal_digit(*b)?);
    if d > limit {
        return None;
    }
    digits_after(rest, d, limit)
}

// A byte of a line, which counts as 0.
#[tactic(auto, unfolding(crate::specs::Forms::read_piece))]
fn read_byte(text: &[u8], b: u8) -> Option<Front<'_>>
    ensures { front_in result ≡ read_piece 0 (byte b) text.now }
{
    let (first, rest) = text.split_first()?;
    if *first == b {
        Some(Front { value: 0, rest })
    } else {
        None
    }
}

// A piece of a line.
#[tactic(auto, unfolding(crate::specs::Forms::read_piece))]
fn read_piece(text: &[u8], piece: Piece, limit: u64) -> Option<Front<'_>>
    ensures { front_in result ≡ read_piece limit piece text.now }
{
    match piece {
        Piece::Hex => read_hex(text),
        Piece::Decimal => read_decimal(text, limit),
        Piece::Byte(b) => read_byte(text, b),
    }
}

// A line of a form with at most N numbers, none of its decimal ones above a limit.
// Kept: the place of the next number is counted, since `Line` has an array of just the form's numbers.
pub fn read_form<'a, const N: usize>(text: &'a [u8], form: &[u8], limit: u64) -> Option<Line<'a, N>>
    requires { fields (map piece_of form.now) ≤ N }
    ensures line { let count = fields (map piece_of form.now) in
        line_in count result ≡ read_form limit (map piece_of form.now) text.now }
    ensures zeros { let count = fields (map piece_of form.now) in
        IfSome result (λ line. drop count line.numbers ≡ replicate (N - count) 0) }
{
    let mut numbers = [0; N];
    let mut count = 0;
    let mut rest = text;
    for b in form {
        let piece = Piece::from(*b);
        let front = read_piece(rest, piece, limit)?;
        if piece.is_field() {
            numbers[count] = front.value;
            count += 1;
        }
        rest = front.rest;
    }
    Some(Line { numbers, rest })
}
