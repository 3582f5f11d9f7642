// A line put into a sink.
ghost use Rattle.std.specs.Prelude.{◌≡◌, map, ◌≤◌, length};
ghost use Rattle.forms.specs.Digits.{hex_of};
ghost use Rattle.forms.specs.Forms.{piece_of, spell_piece, spell};

use crate::digits::decimal_count;
use crate::{Count, Piece, Sink};

// Puts a number's 16 hexadecimal digits.
pub fn put_hex<S: Sink>(x: u64, sink: &mut S)
    requires { S.room sink.old 16 }
    ensures { S.puts sink.old (hex_of x) sink.new }
{
    sink.put_digits(x, 16, 16);
}

// Puts a piece of a form, with its number if it has one.
fn put_piece<S: Sink>(piece: Piece, x: u64, sink: &mut S)
    requires { S.room sink.old (length (spell_piece piece x)) }
    ensures { S.puts sink.old (spell_piece piece x) sink.new }
{
    match piece {
        Piece::Hex => put_hex(x, sink),
        Piece::Decimal => sink.put_digits(x, 10, decimal_count(x)),
        Piece::Byte(b) => sink.put_byte(b),
    }
}

// Puts a line: a form with its numbers, and 0 for those that it lacks.
pub fn put_form<S: Sink>(form: &[u8], numbers: &[u64], sink: &mut S)
    requires { S.room sink.old (length (spell (map piece_of form.now) numbers.now)) }
    ensures { S.puts sink.old (spell (map piece_of form.now) numbers.now) sink.new }
{
    let mut left = numbers;
    for b in form {
        let piece = Piece::from(*b);
        put_piece(piece, left.first().copied().unwrap_or(0), sink);
        left = piece.after(left);
    }
}

// How many bytes a line has.
pub fn form_length(form: &[u8], numbers: &[u64]) -> usize
    requires { length form.now ≤ 4096 }
    ensures { result ≡ length (spell (map piece_of form.now) numbers.now) }
{
    let mut count = Count { bytes: 0 };
    put_form(form, numbers, &mut count);
    count.bytes
}
