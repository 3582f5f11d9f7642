// Evaluates the stored models that standard input holds, at a point, laid out, and in rows of points, and reports how
// many give something else than stored.
#![tactic(auto)]

ghost use Rattle.std.specs.Prelude.{◌≡◌};
ghost use Rattle.vectors.specs.Tally.{counted, wrong_if};
ghost use Rattle.model_vectors.specs.Tally.{case_after, cases_after, compared_value, number_of, off_after, refusal_right, value_wrong, wrong_after};

mod case;
mod compare;
mod line;

use case::Case;
use line::Line;
use std::io;
use vectors::{Lines, SHOWN, Tally};

// What is compared with the stored answer, in the order of the counts.
#[derive(Clone, Copy, Debug, PartialEq, Eq)]
enum Comparison {
    Points,
    Flat,
    Rows,
    Refusals,
}

// The comparisons' names, in that order.
const NAMES: [&str; 4] = ["points", "flat", "rows", "refused"];

impl Comparison {
    // Which count the comparison has.
    // Kept: `usize::from` is no plainer at the one call, and a contract of it is a ghost member.
    fn number(self) -> usize
        ensures { result ≡ number_of self }
    {
        self as usize
    }

    fn name(self) -> &'static str {
        NAMES[self as usize]
    }
}

// Counts a comparison, and names it where it is wrong.
fn note(
    rt: &impl Print,
    comparison: Comparison,
    right: bool,
    line: usize,
    tally: &mut Tally<4>,
) -> io::Result<()>
    ensures cases { tally.new.cases ≡ counted (number_of comparison) tally.old.cases }
    ensures wrong { tally.new.wrong ≡ wrong_if right (number_of comparison) tally.old.wrong }
    ensures off { tally.new.off ≡ tally.old.off }
{
    let kind = comparison.number();
    tally.add(kind, right);
    if !right && tally.wrong[kind] <= SHOWN {
        let name = comparison.name();
        println!(rt; "line {line} is wrong: {name}")?;
    }
    Ok(())
}

// Counts a line that is off its form, and names it.
fn note_off(rt: &impl Print, line: usize, tally: &mut Tally<4>) -> io::Result<()>
    ensures cases { tally.new.cases ≡ tally.old.cases }
    ensures wrong { tally.new.wrong ≡ tally.old.wrong }
    ensures off { tally.new.off ≡ off_after None tally.old.off }
{
    tally.add_off();
    if tally.off <= SHOWN {
        println!(rt; "line {line} is off its form")?;
    }
    Ok(())
}

// Compares each way of evaluating a case's model with the value that is stored. The parts' values in rows
// are left in `values`. A row is right where the model's is, and
// the laid out model's too.
fn judge_value(
    rt: &impl Print,
    case: &Case,
    stored: u64,
    line: usize,
    tally: &mut Tally<4>,
    values: &mut [f64; 4096],
) -> io::Result<()>
    ensures cases { tally.new.cases ≡ compared_value tally.old.cases }
    ensures wrong { tally.new.wrong ≡ value_wrong case.now stored tally.old.wrong }
    ensures off { tally.new.off ≡ tally.old.off }
{
    let model = &case.model;
    let point = case.point;
    let at_point = compare::point_right(model, point, stored);
    let flat = compare::same_bits(compare::flat_value(model, point), stored);
    let row = compare::same_bits(compare::row_value(model, point, values), stored);
    let flat_row = compare::same_bits(compare::flat_row_value(model, point, values), stored);
    let first = note(rt, Comparison::Points, at_point, line, tally);
    let second = note(rt, Comparison::Flat, flat, line, tally);
    let third = note(rt, Comparison::Rows, row && flat_row, line, tally);
    first.and(second).and(third)
}

// Compares evaluation of a case's model with a refusal that is stored.
fn judge_refusal(rt: &impl Print, case: &Case, line: usize, tally: &mut Tally<4>) -> io::Result<()>
    ensures cases { tally.new.cases ≡ counted 3 tally.old.cases }
    ensures wrong { tally.new.wrong ≡ wrong_if (refusal_right case.now) 3 tally.old.wrong }
    ensures off { tally.new.off ≡ tally.old.off }
{
    let refused = compare::refusal_right(&case.model, case.point);
    note(rt, Comparison::Refusals, refused, line, tally)
}

// Compares the answer that a line says with what the case gives.
fn judge_line(
    rt: &impl Print,
    case: &Case,
    said: Option<Line>,
    line: usize,
    tally: &mut Tally<4>,
    values: &mut [f64; 4096],
) -> io::Result<()>
    ensures cases { tally.new.cases ≡ cases_after said tally.old.cases }
    ensures wrong { tally.new.wrong ≡ wrong_after said case.now tally.old.wrong }
    ensures off { tally.new.off ≡ off_after said tally.old.off }
{
    match said {
        Some(Line::Point(_) | Line::Component(_)) => Ok(()),
        Some(Line::Value(stored)) => judge_value(rt, case, stored, line, tally, values),
        Some(Line::Refused) => judge_refusal(rt, case, line, tally),
        None => note_off(rt, line, tally),
    }
}

// The case after a line: a point starts one, and a part goes to its model.
fn case_after(case: Case, said: Option<Line>) -> Case
    ensures { result ≡ case_after said case }
{
    match said {
        Some(Line::Point(p)) => case::start(p),
        Some(Line::Component(part)) => case::with_part(case, part),
        Some(Line::Value(_) | Line::Refused) | None => case,
    }
}

fn take_lines(rt: &impl Print, text: &[u8]) -> io::Result<()> {
    let mut tally = Tally::new();
    // Room for the parts' values in rows, for all cases.
    let mut values = [0.0; 4096];
    let mut case = case::start(geometry::Vec3::new(0.0, 0.0, 0.0));
    for (place, line) in Lines::new(text).enumerate() {
        let said = line::read(line);
        judge_line(
            rt,
            &case,
            said,
            place.wrapping_add(1),
            &mut tally,
            &mut values,
        )?;
        case = case_after(case, said);
    }
    tally.report(rt, &NAMES)
}

// Room for the whole of standard input. Kept: the program's memory is fixed, and what goes past the room
// is not read.
fn room() -> [u8; 524288] {
    [0; 524288]
}

// Kept: a main of its own, since the two calls are all that it is.
fn main(rt: HostRuntime) -> io::Result<()> {
    let mut text = room();
    let n = streams::read_text(&mut rt.stdin(), &mut text)?;
    take_lines(&rt, &text[..n])
}
