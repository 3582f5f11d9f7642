// What bytes are put into: a count of them, or a lent slice.
ghost use Rattle.std.specs.Prelude.{◌≡◌, ℕ, List, [], ◌∷◌, ◌+◌, ◌<◌, ◌≤◌};
ghost use Rattle.forms.specs.Digits.{digits};
ghost use Rattle.forms.specs.Sinks.{SinkLaws, count_room, count_puts, count_laws};
ghost use Rattle.forms.specs.Sinks.{cursor_room, cursor_puts, cursor_laws};

use crate::digits::digit_byte;

// What a line is put into. Each line is put by one function, into a count where its length is asked.
pub trait Sink {
    // A sink that has room for so many bytes.
    ghost room: { Self → ℕ → Type 0 };

    // A sink before and after bytes are put.
    ghost puts: { Self → List ℕ → Self → Type 0 };

    ghost laws: { SinkLaws room puts };

    // Puts a byte.
    fn put_byte(&mut self, b: u8)
        requires { room self.old 1 }
        ensures { puts self.old (b ∷ []) self.new };

    // Puts so many digits of a number in a base.
    fn put_digits(&mut self, x: u64, base: u64, count: usize)
        requires some { 0 < base }
        requires most { base ≤ 16 }
        requires room { room self.old count }
        ensures { puts self.old (digits base count x) self.new };
}

// How many bytes were put.
#[derive(Clone, Copy, Debug, PartialEq, Eq)]
pub struct Count {
    pub bytes: usize,
}

impl Sink for Count {
    ghost room = { count_room };

    ghost puts = { count_puts };

    ghost laws = { count_laws };

    fn put_byte(&mut self, _b: u8) {
        self.bytes += 1;
    }

    fn put_digits(&mut self, _x: u64, _base: u64, count: usize) {
        self.bytes += count;
    }
}

// A lent slice, and the place of the next byte.
// Kept: no equality, since a `&mut` slice has none, and no copy.
#[derive(Debug, Drop)]
pub struct Cursor<'a> {
    pub out: &'a mut [u8],
    pub at: usize,
}

impl<'a> Sink for Cursor<'a> {
    ghost room = { cursor_room };

    ghost puts = { cursor_puts };

    ghost laws = { cursor_laws };

    fn put_byte(&mut self, b: u8) {
        self.out[self.at] = b;
        self.at += 1;
    }

    fn put_digits(&mut self, x: u64, base: u64, count: usize) {
        let at = self.at;
        let out = &mut *self.out;
        let mut rest = x;
        for i in (0..count).rev() {
            out[at + i] = digit_byte(rest % base);
            rest /= base;
        }
        self.at += count;
    }
}
