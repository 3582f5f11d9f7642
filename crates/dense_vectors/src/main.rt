// Makes the calls on a dense field that standard input holds, one to a line, and writes the answers.
// The check compares them with the stored ones.
#![tactic(auto)]

ghost use Rattle.std.specs.Prelude.{IfSome};
ghost use Rattle.cases.specs.Answer.{Given};

mod sampling; // sampling.rt: a model, sampled
mod values; // values.rt: calls that change values
mod words; // words.rt: the words of the cases

use cases::{Answer, Line, Numbers};
use std::io;
use vectors::Lines;
use words::Word;

// The answer of the call that a word names. Numbers that a line leaves out are 0.
fn answer(word: Word, numbers: Numbers) -> Answer
    ensures { Given result }
{
    match word {
        Word::Count => dense_cases::count(numbers),
        Word::Place => dense_cases::place(numbers),
        Word::Indices => dense_cases::indices(numbers),
        Word::Corners => dense_cases::corners(numbers),
        Word::Points => dense_cases::points(numbers),
        Word::Cells => dense_cases::cells(numbers),
        Word::Pad => values::pad(numbers),
        Word::Threshold => values::threshold(numbers),
        Word::Smooth => values::smooth(numbers),
        Word::Octet => dense_cases::octet(numbers),
        Word::Octets => dense_cases::octets(numbers),
        Word::Sample => sampling::sample(numbers),
    }
}

// The answer to a line, where it is a case. The line is read into a room that is lent.
fn answer_to<'a>(text: &'a [u8], line: &mut Line<'a>) -> Option<Answer>
    ensures { IfSome result Given }
{
    line.read(text)?;
    let word = Word::named(line.word)?;
    Some(answer(word, Numbers::new(&line.numbers)))
}

// Room for the whole of standard input. Kept: the program's memory is fixed, and what goes past the room
// is not read.
fn room() -> [u8; 655360] {
    [0; 655360]
}

// Kept: a main of its own. What two programs share of it is a loop of three calls, each program's own.
fn main(rt: HostRuntime) -> io::Result<()> {
    let mut text = room();
    let n = streams::read_text(&mut rt.stdin(), &mut text)?;
    let mut found = Line::new();
    for line in Lines::new(&text[..n]) {
        cases::write_answer(&rt, answer_to(line, &mut found))?;
    }
    Ok(())
}
