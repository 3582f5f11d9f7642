// Lists the jobs that standard input holds: of each the length of its text, 16 digits and byte 10, then
// the text. The answer is what `fieldlist` prints for it, and an empty line. For each text a line is
// written: the digest of its answer. Where the first line is `full` the answers are written instead.
#![tactic(auto)]

ghost use Rattle.std.specs.Prelude.{length};
ghost use Rattle.std.specs.Iterator.{at_most};

use std::io;

// The most bytes of a listing.
const LONGEST: usize = 88176;

// How many bytes a text's length takes, with the byte 10 after it.
const HEAD: usize = 17;

// The texts that are left, each with its length before it. The last may be cut short.
#[derive(Clone, Copy, Debug, PartialEq, Eq)]
struct Texts<'a>(&'a [u8]);

impl<'a> Iterator for Texts<'a> {
    type Item = &'a [u8];

    ghost remaining = { λ s. at_most (length s.0.now) };

    fn next(&mut self) -> Option<&'a [u8]> {
        let rest = self.0.get(HEAD..)?;
        let count = vectors::hex16(self.0, 0)? as usize;
        let (text, after) = rest.split_at(count.min(rest.len()));
        self.0 = after;
        Some(text)
    }
}

// Writes an answer whole.
fn write_whole(rt: &impl Print, listing: &[u8]) -> io::Result<()> {
    rt.write_all(listing)?;
    rt.write_all(b"\n")
}

// Writes the digest of an answer.
fn write_digest(rt: &impl Print, listing: &[u8]) -> io::Result<()> {
    let first = vectors::digest_with(vectors::digest_start(), listing);
    let digest = vectors::digest_with(first, b"\n");
    println!(rt; "{digest:016x}")
}

// Writes the answer to one text, or its digest.
fn list_text(rt: &impl Print, text: &[u8], whole: bool) -> io::Result<()> {
    // Kept: `listing` writes into lent bytes, since its crates have no heap.
    let mut out = [0u8; LONGEST];
    let end = listing::list_whole(text, &mut out);
    if whole {
        write_whole(rt, &out[..end])
    } else {
        write_digest(rt, &out[..end])
    }
}

fn list_texts(rt: &impl Print, bytes: &[u8]) -> io::Result<()> {
    let full = bytes.strip_prefix(b"full\n");
    for text in Texts(full.unwrap_or(bytes)) {
        list_text(rt, text, full.is_some())?;
    }
    Ok(())
}

// Room for the whole of standard input. Kept: the program's memory is fixed, and what goes past the room
// is not read.
fn room() -> [u8; 655360] {
    [0; 655360]
}

// Kept: a main of its own, since the two calls are all that it is.
fn main(rt: HostRuntime) -> io::Result<()> {
    let mut bytes = room();
    let n = streams::read_text(&mut rt.stdin(), &mut bytes)?;
    list_texts(&rt, &bytes[..n])
}
