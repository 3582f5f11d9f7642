// Reads a job's text from standard input, and writes the listing of its finished sparse field, or its
// refusal, to standard output. A text that cannot be read to its end has no listing, since what was
// read could be the text of another job. That, and a listing that cannot be written, is told by one
// line on standard error.
#![tactic(auto)]

use arrayvec::ArrayString;
use std::fmt::Write;
use std::io::{self, Print};

// Room for a text: its first 5,148 bytes decide. Kept: the program's memory is fixed.
fn text_room() -> [u8; 5148] {
    [0; 5148]
}

// Room for every listing. Kept: the program's memory is fixed.
fn listing_room() -> [u8; 88176] {
    [0; 88176]
}

// Says on standard error what failed: the words before a number of the system's.
fn tell_words(rt: &HostRuntime, what: &str, said: &str) -> io::Result<()> {
    match said.split_once(" (os error ") {
        Some((words, _)) => eprintln!(rt; "fieldlist: {what}: {words}"),
        None => eprintln!(rt; "fieldlist: {what}: {said}"),
    }
}

// The same of an error. An error has fewer words than the room has bytes; longer ones would be left out.
fn tell(rt: &HostRuntime, what: &str, error: &io::Error) -> io::Result<()> {
    let mut said: ArrayString<256> = ArrayString::new();
    let _ = write!(said, "{error}");
    tell_words(rt, what, said.as_str())
}

fn main(rt: HostRuntime) {
    let mut text = text_room();
    let mut out = listing_room();
    let n = match streams::read_text(&mut rt.stdin(), &mut text) {
        Ok(n) => n,
        Err(e) => {
            let _ = tell(&rt, "reading the text", &e);
            return;
        }
    };
    let end = listing::list_whole(&text[..n], &mut out);
    if let Err(e) = rt.write_all(&out[..end]) {
        let _ = tell(&rt, "writing the listing", &e);
    }
}
