// A text put into lent bytes, if it fits.
ghost use Rattle.std.specs.Prelude.{◌≡◌, ℕ, List, ◌++◌, ◌-◌, ◌≤◌, ◌<◌, ◌^◌};
ghost use Rattle.std.specs.Prelude.{length, take, replicate};
ghost use Rattle.std.proofs.lemmas.List.Edits.{sets};
ghost use Rattle.listing.specs.Inner.Texts.{line_bytes};
ghost use Rattle.listing.specs.Written.{put_answer, put_bytes};

use crate::Unlisted;
use causes::Cause;
use forms::{Count, Cursor, Sink};

// A text that is put into any sink, also into a count of its bytes.
pub trait Text {
    ghost bytes: { Self → List ℕ };

    fn put<S: Sink>(&self, sink: &mut S)
        requires { S.room sink.old (length (bytes self.now)) }
        ensures { S.puts sink.old (bytes self.now) sink.new };
}

// A line by its form.
#[derive(Clone, Copy, Debug, PartialEq, Eq)]
pub struct Line<'a> {
    pub form: &'a [u8],
    pub numbers: &'a [u64],
}

impl<'a> Text for Line<'a> {
    ghost bytes = { line_bytes };

    fn put<S: Sink>(&self, sink: &mut S) {
        forms::put_form(self.form, self.numbers, sink);
    }
}

// How many bytes a text has.
fn length_of<T: Text>(text: &T) -> usize
    requires { length (T.bytes text.now) < 2 ^ 64 }
    ensures { result ≡ length (T.bytes text.now) }
{
    let mut count = Count { bytes: 0 };
    text.put(&mut count);
    count.bytes
}

// Puts a text at the front of bytes that it fits.
fn put_front<T: Text>(text: &T, out: &mut [u8])
    requires { length (T.bytes text.now) ≤ length out.old }
    ensures { out.new ≡ sets out.old 0 (T.bytes text.now) }
{
    let mut cursor = Cursor { out, at: 0 };
    text.put(&mut cursor);
}

// Sets what lies past a place to 0.
fn zero_rest(at: usize, out: &mut [u8])
    requires { at ≤ length out.old }
    ensures { out.new ≡ take at out.old ++ replicate (length out.old - at) 0 }
{
    out[at..].fill(0);
}

// Puts a text at the front of the lent bytes, and 0 after it, if they are enough; else nothing. The
// bytes are counted before the first is put.
pub fn write<T: Text>(text: &T, out: &mut [u8]) -> Result<usize, Unlisted>
    requires { length (T.bytes text.now) < 2 ^ 64 }
    ensures answer { result ≡ put_answer (T.bytes text.now) out.old }
    ensures out { out.new ≡ put_bytes (T.bytes text.now) out.old }
{
    let length = length_of(text);
    if length > out.len() {
        return Err(Unlisted::Refused(Cause::TooShort));
    }
    put_front(text, out);
    zero_rest(length, out);
    Ok(length)
}
