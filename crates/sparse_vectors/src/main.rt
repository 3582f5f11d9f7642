// Runs the lists of calls on a sparse field's job that standard input holds, a line each. The answers of a
// list are what each call hands back and what the lent slices then hold. For each list a line is written:
// their digest. Where the first line is `full` the answers are written instead.
#![tactic(auto)]

mod list; // list.rt: what a list holds, and what its lines do with it

use cases::{Line, Numbers};
use list::List;
use sparse_cases::{Output, Word};
use std::io;
use vectors::{Lines, OFF};

// A line's word, where so many numbers as it has may follow the word. The line is read into a room that is
// lent.
fn read<'a>(text: &'a [u8], line: &mut Line<'a>) -> Option<Word> {
    line.read(text)?;
    let word = Word::named(line.word)?;
    if !word.takes(line.numbers.len()) {
        return None;
    }
    Some(word)
}

fn take_line<'a>(
    rt: &impl Print,
    text: &'a [u8],
    line: &mut Line<'a>,
    list: &mut List,
    output: &mut Output,
) -> io::Result<()> {
    match read(text, line) {
        Some(word) => list.take(rt, word, Numbers::new(&line.numbers), output),
        None => output.take(rt, &[OFF]),
    }
}

// Takes all lines. A list ends before the next line that lends, and at the end of the text.
fn take_lines(rt: &impl Print, text: &[u8]) -> io::Result<()> {
    let mut list = List::new();
    let mut output = Output::new();
    let mut found = Line::new();
    for (place, line) in Lines::new(text).enumerate() {
        if place > 0 && line.starts_with(b"lend ") {
            output.close(rt)?;
        }
        take_line(rt, line, &mut found, &mut list, &mut output)?;
    }
    if text.is_empty() {
        return Ok(());
    }
    output.close(rt)
}

// Room for the whole of standard input. Kept: the program's memory is fixed, and what goes past the room
// is not read.
fn room() -> [u8; 1048576] {
    [0; 1048576]
}

// Kept: a main of its own, since the two calls are all that it is.
fn main(rt: HostRuntime) -> io::Result<()> {
    let mut text = room();
    let n = streams::read_text(&mut rt.stdin(), &mut text)?;
    take_lines(&rt, &text[..n])
}
