// Runs the stored cases of sqrt, floor, ceil, min and max that standard input holds, a line each,
// and reports how many give something else than stored.
#![tactic(auto)]

ghost use Rattle.std.specs.Prelude.{◌≡◌};
ghost use Rattle.float_vectors.specs.Case.{verdict_of};
ghost use Rattle.float_vectors.specs.Tally.{cases_after, off_after, wrong_after};

mod case;

use case::Verdict;
use std::io;
use vectors::{Lines, SHOWN, Tally};

// Counts the verdict on a line, or the line as off its form.
fn count(verdict: Option<Verdict>, tally: &mut Tally<5>)
    ensures cases { tally.new.cases ≡ cases_after verdict tally.old.cases }
    ensures wrong { tally.new.wrong ≡ wrong_after verdict tally.old.wrong }
    ensures off { tally.new.off ≡ off_after verdict tally.old.off }
{
    match verdict {
        Some(v) => tally.add(v.operation.number(), v.given.is_ok()),
        None => tally.add_off(),
    }
}

// Names a counted line where it is wrong or off its form.
fn show(
    rt: &impl Print,
    verdict: Option<Verdict>,
    line: usize,
    tally: &Tally<5>,
) -> io::Result<()> {
    match verdict {
        Some(
            Verdict {
                given: Err(given),
                ..
            },
        ) if vectors::total(&tally.wrong) <= SHOWN => {
            println!(rt; "line {line} is wrong: it gives {given:016x}")
        }
        None if tally.off <= SHOWN => println!(rt; "line {line} is off its form"),
        _ => Ok(()),
    }
}

// Counts one line, and names it where it is wrong or off its form.
fn count_line(rt: &impl Print, text: &[u8], line: usize, tally: &mut Tally<5>) -> io::Result<()>
    ensures cases { tally.new.cases ≡ cases_after (verdict_of text.now) tally.old.cases }
    ensures wrong { tally.new.wrong ≡ wrong_after (verdict_of text.now) tally.old.wrong }
    ensures off { tally.new.off ≡ off_after (verdict_of text.now) tally.old.off }
{
    let verdict = case::check_line(text);
    count(verdict, tally);
    show(rt, verdict, line, tally)
}

fn count_lines(rt: &impl Print, text: &[u8]) -> io::Result<()> {
    let mut tally = Tally::new();
    for (place, line) in Lines::new(text).enumerate() {
        count_line(rt, line, place.wrapping_add(1), &mut tally)?;
    }
    tally.report(rt, &case::NAMES)
}

// Room for the whole of standard input. Kept: the program's memory is fixed, and what goes past the room
// is not read.
fn room() -> [u8; 524288] {
    [0; 524288]
}

// Kept: a main of its own, since the two calls are all that it is.
fn main(rt: HostRuntime) -> io::Result<()> {
    let mut text = room();
    let n = streams::read_text(&mut rt.stdin(), &mut text)?;
    count_lines(&rt, &text[..n])
}
