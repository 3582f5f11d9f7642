// A line of a list of cases, taken apart, and the line that answers it.
ghost use Rattle.std.specs.Prelude.{◌≡◌, ◌+◌, ◌*◌, [], IfSome, length, take};
ghost use Rattle.arrayvec.specs.ArrayVec.{array_vec_len};

use crate::answer::Answer;
use arrayvec::ArrayVec;
use std::io;
use vectors::MOST_NUMBERS;

// A line's word, and the numbers after it.
#[derive(Debug, Drop, PartialEq, Eq)]
pub struct Line<'a> {
    pub word: &'a [u8],
    pub numbers: ArrayVec<u64, MOST_NUMBERS>,
}

impl<'a> Line<'a> {
    // A room for lines, which are read one after the other.
    pub fn new() -> Self
        ensures word { result.word.now ≡ [] }
        ensures numbers { result.numbers.items ≡ [] }
    {
        Line {
            word: &[],
            numbers: ArrayVec::new(),
        }
    }

    // Reads a line over the one before: its word and its numbers. None where it has not the form of a case;
    // what stands in the room then is no line's.
    pub fn read(&mut self, line: &'a [u8]) -> Option<()>
        ensures word { IfSome result (λ _. self.new.word.now ≡ take (length self.new.word.now) line.entry.now) }
        ensures whole { IfSome result (λ _. length line.entry.now ≡ length self.new.word.now + 17 * array_vec_len self.new.numbers + 1) }
    {
        let (word, rest) = line.split_at(vectors::word_end(line));
        vectors::read_numbers_into(rest, &mut self.numbers)?;
        self.word = word;
        Some(())
    }
}

// A line's word and its numbers, where it has the form of a case.
pub fn read_line(line: &[u8]) -> Option<Line<'_>>
    ensures word { IfSome result (λ found. found.word.now ≡ take (length found.word.now) line.now) }
    ensures whole { IfSome result (λ found. length line.now ≡ length found.word.now + 17 * array_vec_len found.numbers + 1) }
{
    let mut found = Line::new();
    found.read(line)?;
    Some(found)
}

// Writes the answer to a line. A line that is no case is answered by one number.
pub fn write_answer(rt: &impl Print, answer: Option<Answer>) -> io::Result<()> {
    match answer {
        Some(given) => vectors::write_numbers(rt, &given.numbers),
        None => vectors::write_numbers(rt, &[vectors::OFF]),
    }
}
