// Answers the stored cases of the grid that standard input holds: a line each, and a line for each.
#![tactic(auto)]

ghost use Rattle.std.specs.Prelude.{IfSome};
ghost use Rattle.cases.specs.Answer.{Given};

mod corners; // corners.rt: the corner list
mod jobs; // jobs.rt: the causes of open

use cases::{Answer, Numbers};
use grid_cases::Word;
use std::io;
use vectors::Lines;

// The answer to a case with this word, where its numbers are one.
fn answer(word: Word, numbers: Numbers) -> Option<Answer>
    ensures { IfSome result Given }
{
    match word {
        Word::ShortList | Word::LongList => corners::list(numbers),
        Word::Open => Some(jobs::open(numbers)),
        _ => grid_cases::answer(word, numbers),
    }
}

// The answer to a line, where it is a case.
fn answer_to(text: &[u8]) -> Option<Answer>
    ensures { IfSome result Given }
{
    let line = cases::read_line(text)?;
    let word = Word::named(line.word)?;
    if line.numbers.len() != word.count() {
        return None;
    }
    answer(word, Numbers::new(&line.numbers))
}

// Room for the whole of standard input. Kept: the program's memory is fixed, and what goes past the room
// is not read.
fn room() -> [u8; 655360] {
    [0; 655360]
}

// Kept: a main of its own. What two programs share of it is a loop of three calls, each program's own.
fn main(rt: HostRuntime) -> io::Result<()> {
    let mut text = room();
    let n = streams::read_text(&mut rt.stdin(), &mut text)?;
    for line in Lines::new(&text[..n]) {
        cases::write_answer(&rt, answer_to(line))?;
    }
    Ok(())
}
